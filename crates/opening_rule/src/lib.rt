//! A machine opens sound. This function does nothing: its contract is a law.
#![tactic(auto)]

ghost use Rattle.std.specs.Prelude.{ℕ, List};
ghost use Rattle.trace_text.specs.declared.trace.Trace.{Trace};
ghost use Rattle.trace_text.specs.WellFormed.{IsWellFormed};
ghost use Rattle.machine_build.specs.Opening.{IsOpening};
ghost use Rattle.xp_board.specs.Sound.{SoundWords};

/// The words with which a machine opens are sound with empty hands.
pub fn opening_words_are_sound()
    ensures { (t : Trace) (words : List ℕ) → IsWellFormed t → IsOpening t words → SoundWords t.layout words }
{}
