//! What holds of verdicts, as the contract of a function that does nothing.

ghost use Rattle.std.specs.Prelude.{ℕ, List};
ghost use Rattle.xp_words.specs.Machine.{Machine};
ghost use Rattle.xp_words.specs.Places.{sizes_of, memory};
ghost use Rattle.xp_board.specs.Sound.{SoundWords};
ghost use Rattle.walk_audit.specs.declared.verdict.Verdict.{Verdict};
ghost use Rattle.walk_audit.specs.Breaks.{Breaks};

/// No verdict breaks words that are sound. So `audit` answers that they are sound exactly where they are.
pub fn sound_words_break_nothing()
    ensures { (n : Machine) (words : List ℕ) (v : Verdict) → SoundWords n words → Breaks n (memory (sizes_of n) words) v → ⊥ }
{}
