//! The machine stays sound: each legal step keeps all that `Sound` says, so each run does, and what it leads to is
//! safe. These functions do nothing: their contracts are laws.
#![tactic(auto)]

ghost use Rattle.std.specs.Prelude.{◌≡◌, ℕ, ◌<◌, List, None};
ghost use Rattle.xp_words.specs.Machine.{Machine};
ghost use Rattle.xp_words.specs.declared.place.Place.{Place};
ghost use Rattle.xp_words.specs.Places.{sizes_of, memory, run_of};
ghost use Rattle.xp_board.specs.declared.step.Step.{Step};
ghost use Rattle.xp_board.specs.declared.holdings.Holdings.{Holdings};
ghost use Rattle.xp_board.specs.Hands.{IsEmptyHand};
ghost use Rattle.xp_board.specs.Legal.{Legal};
ghost use Rattle.xp_board.specs.Runs.{State, Stepped, Run};
ghost use Rattle.xp_board.specs.Safe.{Safe};
ghost use Rattle.xp_board.specs.Sound.{Sound, SoundState, SoundWords, hand_of};

use count_rule::{
    counts_stay_right, frames_stay_held_alone, idle_hands_stay_empty, stamps_stay_below_the_clock,
    the_map_stays_right, words_stay_spelled, works_stay_right,
};
use found_rule::{holdings_stay_well_formed, what_was_found_stays_true};
use stale_rule::{a_legal_step_keeps_translations_fresh, a_sound_machine_is_safe};
use type_rule::{entries_stay_permitted, entries_still_lead_well, the_dead_stay_dead};
use xp_board::empty_hands_are_well_formed;

/// A legal step, of any kind and with any mark, keeps the machine sound.
pub fn a_legal_step_keeps_the_machine_sound()
    ensures { (n : Machine) (s : ℕ) (x : Step) (m m2 : Place → ℕ) (h h2 : ℕ → Holdings) → s < (sizes_of n).vcpus → Legal n s (h s) x →
        Stepped n s x m m2 h h2 → Sound n m h → Sound n m2 h2 }
{
    words_stay_spelled();
    counts_stay_right();
    entries_still_lead_well();
    entries_stay_permitted();
    frames_stay_held_alone();
    works_stay_right();
    what_was_found_stays_true();
    holdings_stay_well_formed();
    stamps_stay_below_the_clock();
    idle_hands_stay_empty();
    a_legal_step_keeps_translations_fresh();
    the_dead_stay_dead();
    the_map_stays_right();
}

/// A run of legal steps, of any vCPUs in any order, leads from a sound state to a sound one.
pub fn every_run_stays_sound()
    ensures { (n : Machine) (a b : State) (log : List (ℕ × Step)) → Run n a log b → SoundState n a.words a.hands → SoundState n b.words b.hands }
{
    a_legal_step_keeps_the_machine_sound();
}

/// After each such run no page-table path and no cached translation writes a page table or descriptor page in use, or leads to a
/// frame that its domain is not permitted, and the counts are right.
pub fn a_run_leaves_it_safe()
    ensures { (n : Machine) (a b : State) (log : List (ℕ × Step)) → Run n a log b → SoundState n a.words a.hands →
        Safe n (memory (sizes_of n) b.words) (hand_of b.hands) }
{
    every_run_stays_sound();
    a_sound_machine_is_safe();
}

/// Where no vCPU holds anything, the words are sound by themselves, whatever translations there are: a machine may begin with them.
pub fn rested_words_are_sound()
    ensures { (n : Machine) (words : List ℕ) (hands : List Holdings) → SoundState n words hands → ((s : ℕ) → s < (sizes_of n).vcpus → IsEmptyHand (hand_of hands s)) → SoundWords n words }
{
    empty_hands_are_well_formed();
}

/// As long as a vCPU has not looked at its own run word, that word is as it was when the run began; and it had not looked at it then.
pub fn an_unseen_run_word_stays()
    ensures { (n : Machine) (a b : State) (log : List (ℕ × Step)) (s : ℕ) → SoundState n a.words a.hands → s < (sizes_of n).vcpus → Run n a log b → (hand_of b.hands s).run ≡ None →
        ((hand_of a.hands s).run ≡ None) × (memory (sizes_of n) b.words (run_of s) ≡ memory (sizes_of n) a.words (run_of s)) }
{
    every_run_stays_sound()
}
