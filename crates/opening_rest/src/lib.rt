//! A machine opens at rest. This function does nothing: its contract is a law.
#![tactic(auto)]

ghost use Rattle.std.specs.Prelude.{ℕ, List};
ghost use Rattle.xp_words.specs.Places.{memory, sizes_of};
ghost use Rattle.xp_board.specs.Hands.{empty};
ghost use Rattle.table_law.specs.Lawful.{IsAtRest};
ghost use Rattle.trace_text.specs.declared.trace.Trace.{Trace};
ghost use Rattle.trace_text.specs.WellFormed.{IsWellFormed};
ghost use Rattle.machine_build.specs.Opening.{IsOpening};
ghost use Rattle.rest_laws.specs.Resting.{IsNothingLeft};

use opening_rule::opening_words_are_sound;
use rest_laws::words_are_at_rest_where_nothing_is_left;

/// Nothing is left unfinished in the words with which a machine opens, and they are at rest.
pub fn opening_words_are_at_rest()
    ensures left { (t : Trace) (words : List ℕ) → IsWellFormed t → IsOpening t words → IsNothingLeft t.layout (memory (sizes_of t.layout) words) (λ s. empty) }
    ensures rest { (t : Trace) (words : List ℕ) → IsWellFormed t → IsOpening t words → IsAtRest t.layout (memory (sizes_of t.layout) words) }
{
    opening_words_are_sound();
    words_are_at_rest_where_nothing_is_left();
}
