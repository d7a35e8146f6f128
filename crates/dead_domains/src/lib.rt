//! What a destroyed domain leaves. Others alone hold its frames, at every later moment of every run; and each frame that is still its own was
//! listed. These functions do nothing: their contracts are laws.
#![tactic(auto)]

ghost use Rattle.std.specs.Prelude.{◌≡◌, ℕ, ◌+◌, ◌<◌, ◌≤◌, ◌∷◌, ◌++◌, List, Some, length};
ghost use Rattle.xp_words.specs.Machine.{Machine};
ghost use Rattle.xp_words.specs.Places.{sizes_of};
ghost use Rattle.xp_words.specs.declared.place.Place.{Place};
ghost use Rattle.xp_words.specs.declared.place.Place.TheVariants.{Life, Refs};
ghost use Rattle.xp_words.specs.declared.reply.LogLine.{LogLine};
ghost use Rattle.xp_board.specs.declared.step.Step.{Step};
ghost use Rattle.xp_board.specs.declared.holdings.Holdings.{Holdings};
ghost use Rattle.xp_board.specs.declared.holdings.Made.{Made};
ghost use Rattle.xp_board.specs.declared.step.Act.TheVariants.{Store};
ghost use Rattle.xp_board.specs.Steps.{last_since};
ghost use Rattle.xp_board.specs.Readings.{owner_of};
ghost use Rattle.xp_board.specs.Runs.{Run, State, place_of, word_at};
ghost use Rattle.xp_board.specs.Sound.{Sound, SoundState, hand_of};
ghost use Rattle.dead_domains.specs.Buried.{HasBuried, LeavesOnlyListed};
ghost use Rattle.dead_domains.specs.Holders.{LeftToOthers};
ghost use Rattle.dead_domains.specs.Listing.{HasListed, IsListed};

mod stopped;

use sound_rule::every_run_stays_sound;
pub use stopped::{
    a_legal_mark_keeps_the_machine_sound, a_legal_step_brings_the_stopped_nothing,
    a_legal_step_keeps_the_dying, a_life_word_is_as_its_destroyer_left_it,
    a_run_brings_the_stopped_nothing, each_step_has_its_state, the_destroyer_alone_buries,
    the_stopped_gain_nothing,
};

/// On a sound machine each reference to a frame of a dead domain is an entry of another domain's table of the lowest level, an old word of another
/// domain's vCPU, or in such a vCPU's hand; or it is an entry of a table of the dead domain that is itself held so. And there is one.
pub fn others_hold_what_the_dead_leave()
    ensures { (n : Machine) (m : Place → ℕ) (h : ℕ → Holdings) (d g : ℕ) → Sound n m h → d < (sizes_of n).domains → m (Life d) ≡ 255 → owner_of (m (Refs g)) ≡ Some d →
        LeftToOthers n m h d g }
{}

/// In every run a dead domain stays dead, and no frame comes to it.
pub fn the_dead_stay_so()
    ensures dead { (n : Machine) (a b : State) (log : List (ℕ × Step)) (d : ℕ) → SoundState n a.words a.hands → Run n a log b → word_at n a (Life d) ≡ 255 → word_at n b (Life d) ≡ 255 }
    ensures frames { (n : Machine) (a b : State) (log : List (ℕ × Step)) (d g : ℕ) → SoundState n a.words a.hands → Run n a log b → d < (sizes_of n).domains → word_at n a (Life d) ≡ 255 →
        owner_of (word_at n b (Refs g)) ≡ Some d → owner_of (word_at n a (Refs g)) ≡ Some d }
{
    a_run_brings_the_stopped_nothing();
}

/// Where a vCPU that destroys a domain has found each frame not the domain's, or lists it, each frame that is the domain's at that or any later
/// moment of a run is listed, with the word that a step found.
pub fn the_list_is_whole()
    ensures { (n : Machine) (a b : State) (log : List (ℕ × Step)) (s d g : ℕ) (op : ℕ) (lines : List LogLine) → SoundState n a.words a.hands → Run n a log b → s < (sizes_of n).vcpus → d < (sizes_of n).domains →
        word_at n a (Life d) ≡ s + 1 → (e : HasListed n s d (hand_of a.hands s) op lines) → owner_of (word_at n b (Refs g)) ≡ Some d → IsListed n d e.since g (hand_of a.hands s) op lines }
{
    a_run_brings_the_stopped_nothing();
}

/// Destruction leaves only what it lists: from where the destroying vCPU has so listed the frames, each frame that is still the domain's at any later
/// moment is listed; and once the domain is dead, it stays so, and others alone hold what is still the domain's.
pub fn destruction_leaves_only_what_it_lists()
    ensures listed { (n : Machine) (a b : State) (log : List (ℕ × Step)) (s d g : ℕ) (op : ℕ) (lines : List LogLine) → SoundState n a.words a.hands → Run n a log b → s < (sizes_of n).vcpus → d < (sizes_of n).domains →
        word_at n a (Life d) ≡ s + 1 → (e : HasListed n s d (hand_of a.hands s) op lines) → owner_of (word_at n b (Refs g)) ≡ Some d → IsListed n d e.since g (hand_of a.hands s) op lines }
    ensures held { (n : Machine) (a b : State) (log : List (ℕ × Step)) (d g : ℕ) → SoundState n a.words a.hands → Run n a log b → d < (sizes_of n).domains → word_at n b (Life d) ≡ 255 →
        owner_of (word_at n b (Refs g)) ≡ Some d → LeftToOthers n (word_at n b) (hand_of b.hands) d g }
    ensures later { (n : Machine) (a b : State) (log : List (ℕ × Step)) (d : ℕ) → SoundState n a.words a.hands → Run n a log b → word_at n a (Life d) ≡ 255 → word_at n b (Life d) ≡ 255 }
{
    others_hold_what_the_dead_leave();
    the_list_is_whole();
    the_dead_stay_so();
    every_run_stays_sound();
}

/// The same by the steps of the destroying vCPU alone, in a run from any sound state. As it made a step of the run, the life word of the domain that it
/// had last found or left in the run was that it destroys the domain, and by the steps before it had listed all frames: then each frame that is the
/// domain's as the run ends is listed. Where the step stored that the domain is dead, it is dead as the run ends.
pub fn a_destroyer_leaves_only_what_it_lists()
    ensures listed { (n : Machine) (a b : State) (log : List (ℕ × Step)) (s d g op : ℕ) (lines : List LogLine) (xs ys : List Made) (y : Made) (u : Holdings) → SoundState n a.words a.hands → Run n a log b →
        s < (sizes_of n).vcpus → d < (sizes_of n).domains → (hand_of b.hands s).steps ≡ ys ++ (y ∷ xs) → length (hand_of a.hands s).steps ≤ length xs →
        last_since (sizes_of n) (length (hand_of a.hands s).steps) (Life d) xs ≡ Some (s + 1) → u.steps ≡ xs → (e : HasListed n s d u op lines) → owner_of (word_at n b (Refs g)) ≡ Some d →
        IsListed n d e.since g u op lines }
    ensures dead { (n : Machine) (a b : State) (log : List (ℕ × Step)) (s d : ℕ) (xs ys : List Made) (y : Made) → SoundState n a.words a.hands → Run n a log b → s < (sizes_of n).vcpus →
        (hand_of b.hands s).steps ≡ ys ++ (y ∷ xs) → length (hand_of a.hands s).steps ≤ length xs → place_of n y.step ≡ Life d → y.step.act ≡ Store 255 → word_at n b (Life d) ≡ 255 }
{
    a_life_word_is_as_its_destroyer_left_it();
    each_step_has_its_state();
    every_run_stays_sound();
    a_run_brings_the_stopped_nothing();
}

/// The same where a vCPU's own steps of a run destroyed and buried a domain: what is then the domain's stands in that log, and others alone hold it.
pub fn a_burial_leaves_only_what_is_listed()
    ensures { (n : Machine) (a b : State) (log : List (ℕ × Step)) (s d op : ℕ) (lines : List LogLine) → SoundState n a.words a.hands → Run n a log b → s < (sizes_of n).vcpus →
        HasBuried n s d op (length (hand_of a.hands s).steps) (hand_of b.hands s) lines → LeavesOnlyListed n d op lines (word_at n b) (hand_of b.hands) }
{
    a_life_word_is_as_its_destroyer_left_it();
    each_step_has_its_state();
    every_run_stays_sound();
    a_run_brings_the_stopped_nothing();
    others_hold_what_the_dead_leave();
}
