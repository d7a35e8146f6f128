//! Rounds in which each vCPU has a turn.
ghost use Rattle.std.specs.Prelude.{◌≡◌, ◌<◌, ◌≤◌, ℕ, All, List, length, map};
ghost use Rattle.trace_text.specs.WellFormed.{IsWellFormed};
ghost use Rattle.trace_text.specs.declared.trace.Trace.{Trace};
ghost use Rattle.machine_build.specs.Opening.{IsOpening};
ghost use Rattle.shared_board.specs.Board.{opened_story};
ghost use Rattle.vcpu_runners.specs.Cpus.{first_cpus};
ghost use Rattle.vcpu_runners.specs.Turns.{pending_of};
ghost use Rattle.xp_words.specs.Machine.{Machine};
ghost use Rattle.xp_words.specs.declared.place.Place.TheVariants.{Clock};
ghost use Rattle.xp_board.specs.Readings.{last_clock};
ghost use Rattle.xp_machine.specs.Cpus.{order};
ghost use Rattle.xp_machine.specs.Ran.{RanTrace, first_gates};
ghost use Rattle.xp_machine.specs.Turns.{Stage, Turns, stage};
ghost use Rattle.round_laws.specs.Rounds.{AreAllRetired, IsRound, rounds_to_go, turns_in_rounds};
ghost use Rattle.round_laws.specs.Stages.{AreSparing, IsSteady, words_of};
ghost use Rattle.xp_preempt.specs.Gates.{Gate};

use crate::turns::a_turn_leaves_less_to_do;
use answer_laws::alone_stays;
use course_laws::who_is_alone_has_orderly_words;
use opening_rule::opening_words_are_sound;
use turn_measures::{
    a_paused_settling_names_less, a_settling_that_ends_names_none, a_turn_answers_its_ask,
    a_turn_gets_ahead_or_stays, a_turn_leaves_the_others,
    a_turn_paused_within_an_element_goes_forward, who_is_waited_for_is_asked,
};

/// Where each vCPU has a turn in each round, all are retired behind so many rounds, whatever their gates say, unless the clock comes to its last value.
pub fn all_retire_in_rounds()
    ensures { (n : Machine) (rounds : List (List ℕ)) (s s' : Stage) → IsSteady n s → All (IsRound n) rounds → Turns n (turns_in_rounds rounds) s s' → words_of n s' Clock < last_clock → rounds_to_go n s ≤ length rounds → AreAllRetired s' }
{
    alone_stays();
    who_is_alone_has_orderly_words();
    a_turn_gets_ahead_or_stays();
    a_turn_leaves_the_others();
    a_paused_settling_names_less();
    a_settling_that_ends_names_none();
    a_turn_paused_within_an_element_goes_forward();
    who_is_waited_for_is_asked();
    a_turn_answers_its_ask();
}

/// A machine opens so, where no script destroys a domain.
pub fn an_opening_is_steady()
    ensures { (t : Trace) (opened : List ℕ) (gates : List Gate) → IsWellFormed t → All AreSparing t.scripts → IsOpening t opened → IsSteady t.layout (stage (opened_story t.layout opened) (first_cpus t.layout t.scripts) gates) }
{
    opening_words_are_sound();
}

/// So all operations of all scripts are answered then.
pub fn all_scripts_are_answered_in_rounds()
    ensures { (n : Machine) (rounds : List (List ℕ)) (s s' : Stage) → IsSteady n s → All (IsRound n) rounds → Turns n (turns_in_rounds rounds) s s' → words_of n s' Clock < last_clock → rounds_to_go n s ≤ length rounds → All (λ k. k ≡ 0) (map pending_of s'.cpus) }
{
    a_turn_leaves_less_to_do();
    all_retire_in_rounds();
}
