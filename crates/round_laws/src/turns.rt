//! One turn.
ghost use Rattle.std.specs.Prelude.{◌≡◌, ◌<◌, ◌≤◌, ℕ, false, slice_get, Some};
ghost use Rattle.xp_words.specs.Machine.{Machine};
ghost use Rattle.xp_words.specs.declared.place.Place.TheVariants.{Clock};
ghost use Rattle.vcpu_turn.specs.Cpus.{Processing};
ghost use Rattle.xp_machine.specs.Turns.{IsStagedTurn, MakesStagedTurn, Stage};
ghost use Rattle.round_laws.specs.Rounds.{AwaitsFlush};
ghost use Rattle.round_laws.specs.Stages.{IsSteady, to_go, words_of};

use answer_laws::alone_stays;
use course_laws::who_is_alone_has_orderly_words;
use turn_measures::{
    a_paused_settling_names_less, a_settling_that_ends_names_none, a_turn_gets_ahead_or_stays,
    a_turn_leaves_the_others, a_turn_paused_within_an_element_goes_forward,
};

/// A turn leaves no more to do than there was, and less where it was not paused for the flush of another vCPU. The clock does not go back.
pub fn a_turn_leaves_less_to_do()
    ensures steady { (n : Machine) (v : ℕ) (s s' : Stage) → IsSteady n s → IsStagedTurn n v s s' → IsSteady n s' }
    ensures no_more { (n : Machine) (v : ℕ) (s s' : Stage) → IsSteady n s → IsStagedTurn n v s s' → to_go n s' ≤ to_go n s }
    ensures clock { (n : Machine) (v : ℕ) (s s' : Stage) → IsSteady n s → IsStagedTurn n v s s' → words_of n s Clock ≤ words_of n s' Clock }
    ensures less { (n : Machine) (v : ℕ) (c : Processing) (s s' : Stage) → IsSteady n s → slice_get s.cpus v ≡ Some c → c.retired ≡ false → (turn : MakesStagedTurn n v c s s') → (AwaitsFlush turn.end → ⊥) → to_go n s' < to_go n s }
{
    alone_stays();
    who_is_alone_has_orderly_words();
    a_turn_gets_ahead_or_stays();
    a_turn_leaves_the_others();
    a_paused_settling_names_less();
    a_settling_that_ends_names_none();
    a_turn_paused_within_an_element_goes_forward();
}
