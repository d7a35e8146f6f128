//! What no step and no run changes: a vCPU that is stopped, a domain that is dead, what a domain has whose vCPUs are all stopped, and the life word of
//! one that another vCPU destroys. And in which state a step of a run was made.
ghost use Rattle.std.specs.Prelude.{◌≡◌, ℕ, ◌+◌, ◌<◌, ◌≤◌, ◌∷◌, ◌++◌, List, Some, length};
ghost use Rattle.xp_words.specs.Machine.{Machine};
ghost use Rattle.xp_words.specs.declared.place.Place.{Place};
ghost use Rattle.xp_words.specs.declared.place.Place.TheVariants.{Life};
ghost use Rattle.xp_words.specs.Places.{sizes_of, memory};
ghost use Rattle.xp_board.specs.declared.step.Step.{Step};
ghost use Rattle.xp_board.specs.declared.holdings.Holdings.{Holdings};
ghost use Rattle.xp_board.specs.declared.holdings.Made.{Made};
ghost use Rattle.xp_board.specs.Keeping.{KeepsMark};
ghost use Rattle.xp_board.specs.Legal.{Legal};
ghost use Rattle.xp_board.specs.Runs.{State, Stepped, Run, word_at};
ghost use Rattle.xp_board.specs.Sound.{Sound, SoundState, hand_of};
ghost use Rattle.xp_board.specs.Steps.{last_since};
ghost use Rattle.dead_domains.specs.Moments.{WasMade};
ghost use Rattle.dead_domains.specs.Stopped.{ActsKeepDying, BringsNothing, GainsNothing, KeepsDying};

use count_rule::{
    counts_stay_right, frames_stay_held_alone, idle_hands_stay_empty, stamps_stay_below_the_clock,
    the_map_stays_right, words_stay_spelled, works_stay_right,
};
use found_rule::{holdings_stay_well_formed, what_was_found_stays_true};
use sound_rule::every_run_stays_sound;
use stale_rule::a_legal_step_keeps_translations_fresh;
use type_rule::{entries_stay_permitted, entries_still_lead_well, the_dead_stay_dead};

/// An act leaves each stopped vCPU stopped and each dead domain dead, and brings no frame to a domain whose vCPUs are all stopped.
pub fn the_stopped_gain_nothing()
    ensures { BringsNothing }
{}

/// The life word of a dying domain is changed by an act there of the vCPU that destroys it, and by no other.
pub fn the_destroyer_alone_buries()
    ensures { ActsKeepDying }
{}

/// The mark of a legal step alone keeps the machine sound.
pub fn a_legal_mark_keeps_the_machine_sound()
    ensures { KeepsMark (λ n m h. Sound n m h) }
{
    words_stay_spelled();
    counts_stay_right();
    entries_still_lead_well();
    entries_stay_permitted();
    frames_stay_held_alone();
    works_stay_right();
    what_was_found_stays_true();
    holdings_stay_well_formed();
    stamps_stay_below_the_clock();
    idle_hands_stay_empty();
    a_legal_step_keeps_translations_fresh();
    the_dead_stay_dead();
    the_map_stays_right();
}

/// A legal step leaves each stopped vCPU stopped and each dead domain dead, and brings no frame to a domain whose vCPUs are all stopped.
pub fn a_legal_step_brings_the_stopped_nothing()
    ensures { (n : Machine) (s : ℕ) (x : Step) (m m2 : Place → ℕ) (h h2 : ℕ → Holdings) → s < (sizes_of n).vcpus → Legal n s (h s) x →
        Stepped n s x m m2 h h2 → Sound n m h → GainsNothing n m m2 }
{
    a_legal_mark_keeps_the_machine_sound();
    the_stopped_gain_nothing();
}

/// So does each run.
pub fn a_run_brings_the_stopped_nothing()
    ensures { (n : Machine) (a b : State) (log : List (ℕ × Step)) → Run n a log b → SoundState n a.words a.hands →
        GainsNothing n (memory (sizes_of n) a.words) (memory (sizes_of n) b.words) }
{
    a_legal_step_brings_the_stopped_nothing();
    every_run_stays_sound();
}

/// A legal step leaves the life word of a dying domain, unless it is a step there of the vCPU that destroys the domain.
pub fn a_legal_step_keeps_the_dying()
    ensures { (n : Machine) (s : ℕ) (x : Step) (m m2 : Place → ℕ) (h h2 : ℕ → Holdings) → s < (sizes_of n).vcpus → Legal n s (h s) x →
        Stepped n s x m m2 h h2 → Sound n m h → KeepsDying n s x m m2 }
{
    a_legal_mark_keeps_the_machine_sound();
    the_destroyer_alone_buries();
}

/// Where a vCPU has stored in a run that it destroys a domain, and has found or left no other life word of it since, that word stands.
pub fn a_life_word_is_as_its_destroyer_left_it()
    ensures { (n : Machine) (a b : State) (log : List (ℕ × Step)) (s d : ℕ) → Run n a log b → SoundState n a.words a.hands → s < (sizes_of n).vcpus →
        last_since (sizes_of n) (length (hand_of a.hands s).steps) (Life d) (hand_of b.hands s).steps ≡ Some (s + 1) → word_at n b (Life d) ≡ s + 1 }
{
    a_legal_step_keeps_the_dying();
    every_run_stays_sound();
}

/// Each step that a vCPU made in a run was made in some state of the run: the vCPU had made the steps before it then, and it found the word that stood
/// there.
pub fn each_step_has_its_state()
    ensures { (n : Machine) (a b : State) (log : List (ℕ × Step)) (s : ℕ) (xs ys : List Made) (y : Made) → Run n a log b → SoundState n a.words a.hands → s < (sizes_of n).vcpus →
        (hand_of b.hands s).steps ≡ ys ++ (y ∷ xs) → length (hand_of a.hands s).steps ≤ length xs → WasMade n a b s xs y }
{
    every_run_stays_sound();
}
