//! What the plain meanings change beside frames.
ghost use Rattle.std.specs.Prelude.{◌≡◌, ℕ, List};
ghost use Rattle.xp_words.specs.Machine.{Machine};
ghost use Rattle.script_law.specs.Pages.{clear_frame, copy_frame, set_descriptor, set_gdt, set_ldt};
ghost use Rattle.script_law.specs.Values.{Solo};
ghost use Rattle.script_law.specs.Walks.{touch_ldt};
ghost use Rattle.solo_pages.specs.Kept.{IsGdtWord, IsLdtWord, IsPageWord, KeepsBeside};

/// Pages cleared and copied, and descriptors written, change frames alone; the tables that are set and touched also the own words that name their pages, and where the LDT is. Refused
/// or not, no frame comes by the mark that keeps it.
pub fn the_plain_functions_change_only_the_words_that_they_name()
    ensures cleared { (n : Machine) (d f : ℕ) (x : Solo) → KeepsBeside (λ k. ⊥) x (clear_frame n d f x).left }
    ensures copied { (n : Machine) (d to from : ℕ) (x : Solo) → KeepsBeside (λ k. ⊥) x (copy_frame n d to from x).left }
    ensures described { (n : Machine) (d address word : ℕ) (x : Solo) → KeepsBeside (λ k. ⊥) x (set_descriptor n d address word x).left }
    ensures gdt { (n : Machine) (d entries : ℕ) (frames : List ℕ) (x : Solo) → KeepsBeside IsGdtWord x (set_gdt n d entries frames x).left }
    ensures ldt { (address entries : ℕ) (x : Solo) → KeepsBeside IsLdtWord x (set_ldt address entries x).left }
    ensures touched { (n : Machine) (d page : ℕ) (x : Solo) → KeepsBeside (IsPageWord page) x (touch_ldt n d page x).left }
{}
