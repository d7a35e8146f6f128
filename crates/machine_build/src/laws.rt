//! What the opening words mean, as contracts of functions that do nothing.

ghost use Rattle.std.specs.Prelude.{◌≡◌, ◌<◌, ◌^◌, ◌+◌, ◌*◌, ℕ, Some, find};
ghost use Rattle.xp_words.specs.RefWords.{ref_read};
ghost use Rattle.xp_words.specs.Entries.{is_bit};
ghost use Rattle.xp_words.specs.KindWords.{kind_read};
ghost use Rattle.xp_words.specs.declared.place.Place.TheVariants.{Refs, Kind, Map};
ghost use Rattle.trace_text.specs.declared.trace.Trace.{Trace};
ghost use Rattle.trace_text.specs.WellFormed.{IsWellFormed};
ghost use Rattle.trace_text.specs.Counted.{has_frame};
ghost use Rattle.machine_build.specs.Opening.{opening_at, is_unowned, reference_in, untyped};

/// In a word of the map of free frames each bit is set exactly where its frame is the machine's and nobody owns it.
pub fn each_bit_is_its_frame()
    ensures bit { (t : Trace) (k b : ℕ) → b < 64 → is_bit b (opening_at t (Map k)) ≡ is_unowned t (64 * k + b) }
    ensures rest { (t : Trace) (k : ℕ) → opening_at t (Map k) < 2 ^ 64 }
{}

/// Each reference word is read as owned, allocated and referenced once, or as free with stamp 0.
pub fn each_frame_opens_owned_or_free()
    ensures { (t : Trace) (f : ℕ) → IsWellFormed t → ref_read (opening_at t (Refs f)) ≡ Some (reference_in (find (has_frame f) t.owned)) }
{}

/// Each kind word is read as dead, of no type, with stamp 0.
pub fn each_frame_opens_untyped()
    ensures { (t : Trace) (f : ℕ) → kind_read (opening_at t (Kind f)) ≡ Some untyped }
{}
