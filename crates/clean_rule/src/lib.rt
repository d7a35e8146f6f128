//! What a frame holds when it is given to a domain, and where what is found in it later comes from. These functions do nothing: their
//! contracts are laws.
#![tactic(auto)]

ghost use Rattle.std.specs.Prelude.{◌≡◌, ◌⊎◌, ◌<◌, ℕ, List, ◌∷◌, Option};
ghost use Rattle.xp_words.specs.Machine.{Machine};
ghost use Rattle.xp_words.specs.Places.{sizes_of};
ghost use Rattle.xp_words.specs.declared.place.Place.{Place};
ghost use Rattle.xp_words.specs.declared.place.Place.TheVariants.{Cell};
ghost use Rattle.xp_board.specs.Legal.{Legal, LegalMove};
ghost use Rattle.xp_board.specs.Readings.{domain_of};
ghost use Rattle.xp_board.specs.Runs.{Run, State, StepsTo, word_at};
ghost use Rattle.xp_board.specs.Sound.{Sound, SoundState};
ghost use Rattle.xp_board.specs.Valid.{Permits};
ghost use Rattle.xp_board.specs.declared.holdings.Holdings.{Holdings};
ghost use Rattle.xp_board.specs.declared.step.Act.{Act};
ghost use Rattle.xp_board.specs.declared.step.Mark.{Mark};
ghost use Rattle.xp_board.specs.declared.step.Step.{Step};
ghost use Rattle.xp_board.specs.declared.step.StepKind.TheVariants as steps;
ghost use Rattle.clean_rule.specs.Clean.{GivesFrame, IsClean, WroteIn};

use sound_rule::every_run_stays_sound;
use stale_rule::a_sound_machine_is_safe;

/// A vCPU gives a frame only to its own domain. All cells of the frame are 0 then; no path of page tables, no translation and no walk in flight
/// of any vCPU leads to it; and nothing refers to it. Of the machine-to-physical word of the frame nothing is said.
pub fn a_frame_is_given_clean()
    ensures clean { (n : Machine) (m : Place → ℕ) (h : ℕ → Holdings) (s f d : ℕ) (x : Step) → Sound n m h → s < (sizes_of n).vcpus → Legal n s (h s) x → GivesFrame n x f d → IsClean n m h f }
    ensures own { (n : Machine) (m : Place → ℕ) (h : ℕ → Holdings) (s f d : ℕ) (x : Step) → Sound n m h → s < (sizes_of n).vcpus → Legal n s (h s) x → GivesFrame n x f d → d ≡ domain_of n s }
{}

/// A word that is found in a cell of a given frame is 0, or one of the steps since the frame was given changed the cell to it: a legal step of
/// some vCPU, made in a state that the run came to.
pub fn what_a_given_frame_holds_came_since()
    ensures { (n : Machine) (a c e b : State) (before since : List (ℕ × Step)) (s f d i : ℕ) (x : Step) → SoundState n a.words a.hands → Run n a before c → StepsTo n c s x e → GivesFrame n x f d → Run n e since b → i < 512 →
        (word_at n b (Cell f i) ≡ 0) ⊎ WroteIn n e since (Cell f i) (word_at n b (Cell f i)) }
{
    every_run_stays_sound();
}

/// A guest loads and stores only in frames that its vCPU's domain is permitted as it does so: its own, free ones, and those of a domain over
/// which it has or once had privilege.
pub fn a_guest_comes_to_permitted_frames()
    ensures { (n : Machine) (m : Place → ℕ) (h : ℕ → Holdings) (v f i : ℕ) (a : Act) (mark : Option Mark) → Sound n m h → v < (sizes_of n).vcpus → LegalMove n v (h v) (Cell f i) a steps.Guest mark → Permits m (domain_of n v) f }
{
    a_sound_machine_is_safe();
}
