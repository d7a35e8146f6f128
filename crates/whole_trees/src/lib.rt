//! What page tables in use lead to, at each moment between two steps of any vCPUs. These functions do nothing: their contracts are laws.
#![tactic(auto)]

ghost use Rattle.std.specs.Prelude.{◌≡◌, ◌≤◌, ℕ, Bool, IsTrue, List, Ok, Some};
ghost use Rattle.xp_words.specs.declared.kind.PageType.{PageType};
ghost use Rattle.xp_words.specs.declared.place.Place.{Place};
ghost use Rattle.xp_words.specs.Machine.{Machine};
ghost use Rattle.xp_words.specs.PageTypes.{is_table};
ghost use Rattle.xp_board.specs.declared.holdings.Holdings.{Holdings};
ghost use Rattle.xp_board.specs.declared.step.Step.{Step};
ghost use Rattle.xp_board.specs.Lawful.{IsCountedAs};
ghost use Rattle.xp_board.specs.Readings.{kind_at};
ghost use Rattle.xp_board.specs.Runs.{Run, State, start, word_at};
ghost use Rattle.xp_board.specs.Sound.{Sound, SoundState, SoundWords, hand_of};
ghost use Rattle.xp_board.specs.Told.{PortValue};
ghost use Rattle.step_maker.specs.Moves.{Came};
ghost use Rattle.partial_state.specs.Levels.{level_type};
ghost use Rattle.table_bases.specs.Course.{SetsBase};
ghost use Rattle.table_bases.specs.Holding.{base_number};
ghost use Rattle.table_bases.specs.declared.words.Base.{Base};
ghost use Rattle.mmuext_ops.specs.Course.{Pinned};
ghost use Rattle.whole_trees.specs.Whole.{AllWhole, IsToldBySteps, IsWholeTree, LeadsDown, WasBase, WasPinned};

use sound_rule::every_run_stays_sound;

/// In a sound machine all that a live and counted table leads to is validated, also while other vCPUs are in the middle of anything.
pub fn all_below_a_live_table_is_validated()
    ensures { (n : Machine) (m : Place → ℕ) (h : ℕ → Holdings) (f : ℕ) (t : PageType) → Sound n m h → IsTrue (is_table t) → IsCountedAs (kind_at m f) t → IsWholeTree n m f t }
{}

/// So it is, at each moment of a run from a sound state, with each frame that has the pinned mark, and with what each vCPU's kernel or user base names
/// (its words 0 and 1).
pub fn every_moment_of_a_run_is_whole()
    ensures { (n : Machine) (a b : State) (log : List (ℕ × Step)) → SoundState n a.words a.hands → Run n a log b → AllWhole n (word_at n b) }
{
    every_run_stays_sound();
}

/// All trees that are whole at one moment lead to a frame as one type. So what is a table in one of them is mapped writable by none.
pub fn a_frame_has_one_type_in_all_trees()
    ensures { (n : Machine) (m : Place → ℕ) (f g x : ℕ) (t u v w : PageType) → IsWholeTree n m f t → IsWholeTree n m g u → LeadsDown m f t x v → LeadsDown m g u x w → v ≡ w }
{}

/// A pin that is done, from port `v` to port `w` of a vCPU that holds what its own steps tell, and whose steps up to a later port `z` stand on a run from
/// sound words: one of the steps between `v` and `w` set the mark, and at the moment of that run behind it the frame was pinned as a table of that level,
/// and all that it leads to validated.
pub fn a_pin_that_is_done_is_whole_as_it_is_set()
    ensures { (n : Machine) (opening : List ℕ) (log : List (ℕ × Step)) (b : State) (v w z : PortValue) (d f level : ℕ) (answers : List Bool) →
        SoundWords n opening → Run n (start n opening) log b → v.post.machine ≡ n → IsToldBySteps n v.post.vcpu v.holdings → (hand_of b.hands v.post.vcpu).steps ≡ z.holdings.steps →
        1 ≤ level → Pinned v w d f level answers (Ok tt) → Came w z → WasPinned n opening log v.post.vcpu v.holdings.steps w.holdings.steps f (level_type level) }
{
    every_run_stays_sound();
}

/// A new base that is set, the kernel's or the user's: one of the steps between `v` and `w` is at that word, and at the moment behind it the word names the frame,
/// which is a top table of the vCPU's own domain, and all that it leads to is validated.
pub fn a_base_that_is_set_is_whole_as_it_is_stored()
    ensures { (n : Machine) (opening : List ℕ) (log : List (ℕ × Step)) (b : State) (v w z : PortValue) (base : Base) (f : ℕ) (answers : List Bool) →
        SoundWords n opening → Run n (start n opening) log b → v.post.machine ≡ n → (hand_of b.hands v.post.vcpu).steps ≡ z.holdings.steps → SetsBase v w base (Some f) answers (Ok tt) → Came w z →
        WasBase n opening log v.post.vcpu v.holdings.steps w.holdings.steps (base_number base) f }
{
    every_run_stays_sound();
}
