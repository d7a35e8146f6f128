//! What holds of every word, as contracts of functions that do nothing.

ghost use Rattle.std.specs.Prelude.{◌≡◌, ◌≢◌, ℕ, ◌%◌, ◌/◌, ◌<◌, ◌^◌, Some, IsTrue, List, length, slice_set};
ghost use Rattle.xp_words.specs.declared.refs.RefWord.{RefWord};
ghost use Rattle.xp_words.specs.declared.kind.KindWord.{KindWord};
ghost use Rattle.xp_words.specs.declared.kind.PageType.{PageType};
ghost use Rattle.xp_words.specs.declared.context.ContextWord.{ContextWord};
ghost use Rattle.xp_words.specs.declared.context.LdtBase.{LdtBase};
ghost use Rattle.xp_words.specs.RefWords.{ref_read, ref_write, IsRef};
ghost use Rattle.xp_words.specs.KindWords.{is_kind, kind_read, kind_write};
ghost use Rattle.xp_words.specs.PageTypes.{type_number, type_of};
ghost use Rattle.xp_words.specs.ContextWords.{context_read, context_write, IsContext, ldt_read, ldt_write, IsLdtBase};
ghost use Rattle.xp_words.specs.Entries.{fixed};
ghost use Rattle.xp_words.specs.declared.place.Place.{Place};
ghost use Rattle.xp_words.specs.Places.{Sizes, is_place, number, place_at, size, memory};

/// Each reference that has a word is read back from it, and no word but its own is read as it.
pub fn each_reference_has_one_word()
    ensures back { (x : RefWord) → IsRef x → ref_read (ref_write x) ≡ Some x }
    ensures single { (w : ℕ) (x : RefWord) → w < 2 ^ 64 → ref_read w ≡ Some x → IsRef x × (ref_write x ≡ w) }
{}

/// Each kind that has a word is read back from it, and no word but its own is read as it.
pub fn each_kind_has_one_word()
    ensures back { (x : KindWord) → IsTrue (is_kind x) → kind_read (kind_write x) ≡ Some x }
    ensures single { (w : ℕ) (x : KindWord) → kind_read w ≡ Some x → IsTrue (is_kind x) × (kind_write x ≡ w) }
{}

/// Each type is that of its number, and each number but 6 below 8 is that of its type.
pub fn each_type_has_one_number()
    ensures back { (t : PageType) → type_of (type_number t) ≡ t }
    ensures single { (n : ℕ) → n < 8 → n ≢ 6 → type_number (type_of n) ≡ n }
{}

/// Each frame of a context word, and none, is read back from its word, and no other word is read as it.
pub fn each_context_has_one_word()
    ensures back { (x : ContextWord) → IsContext x → context_read (context_write x) ≡ Some x }
    ensures single { (w : ℕ) (x : ContextWord) → context_read w ≡ Some x → IsContext x × (context_write x ≡ w) }
{}

/// Each base of an LDT that has a word is read back from it, and no word but its own is read as it.
pub fn each_ldt_base_has_one_word()
    ensures back { (x : LdtBase) → IsLdtBase x → ldt_read (ldt_write x) ≡ Some x }
    ensures single { (w : ℕ) (x : LdtBase) → ldt_read w ≡ Some x → IsLdtBase x × (ldt_write x ≡ w) }
{}

/// A descriptor in its fixed form is its own fixed form. Fixing changes the privilege level alone, bits 45 and 46.
pub fn a_fixed_descriptor_stays()
    ensures again { (w v : ℕ) → fixed w ≡ Some v → fixed v ≡ Some v }
    ensures fits { (w v : ℕ) → w < 2 ^ 64 → fixed w ≡ Some v → v < 2 ^ 64 }
    ensures rest { (w v : ℕ) → fixed w ≡ Some v → (v % 2 ^ 45 ≡ w % 2 ^ 45) × (v / 2 ^ 47 ≡ w / 2 ^ 47) }
{}

/// Two words of a machine stand in two places of its list, and in each place of the list stands a word of it.
pub fn each_place_has_one_number()
    ensures within { (z : Sizes) (p : Place) → IsTrue (is_place z p) → number z p < size z }
    ensures apart { (z : Sizes) (p q : Place) → IsTrue (is_place z p) → IsTrue (is_place z q) → q ≢ p → number z q ≢ number z p }
    ensures onto { (z : Sizes) (n : ℕ) → n < size z → IsTrue (is_place z (place_at z n)) × (number z (place_at z n) ≡ n) }
    ensures back { (z : Sizes) (p : Place) → IsTrue (is_place z p) → place_at z (number z p) ≡ p }
{}

/// A write to the list changes one word of the machine.
pub fn a_write_changes_one_word()
    ensures same { (z : Sizes) (words : List ℕ) (p : Place) (w : ℕ) → IsTrue (is_place z p) → length words ≡ size z → memory z (slice_set words (number z p) w) p ≡ w }
    ensures other { (z : Sizes) (words : List ℕ) (p q : Place) (w : ℕ) → IsTrue (is_place z p) → q ≢ p → memory z (slice_set words (number z p) w) q ≡ memory z words q }
{}
