//! Words of which nobody has anything in hand. These functions do nothing: their contracts are laws.
#![tactic(auto)]

ghost use Rattle.std.specs.Prelude.{◌≡◌, ◌<◌, ℕ, true, IsTrue};
ghost use Rattle.xp_words.specs.Machine.{Machine};
ghost use Rattle.xp_board.specs.declared.holdings.Holdings.{Holdings};
ghost use Rattle.xp_board.specs.Readings.{is_partial, kind_at};
ghost use Rattle.xp_board.specs.Sound.{Sound};
ghost use Rattle.step_maker.specs.Plain.{Words};
ghost use Rattle.table_law.specs.Lawful.{IsAtRest};
ghost use Rattle.rest_laws.specs.Resting.{AreEmpty, IsIdle, IsNamed, IsNothingLeft};

/// In sound words of which nobody has anything in hand no frame is in work, closing, or under an entry lock.
pub fn nothing_is_in_work()
    ensures { (n : Machine) (m : Words) (h : ℕ → Holdings) (g : ℕ) → Sound n m h → AreEmpty n h → IsIdle n m g }
{}

/// And each partial frame is named: by its kept mark, by an old word of some vCPU, or by the last recorded entry of a table that is partial, too.
pub fn each_partial_frame_is_named()
    ensures { (n : Machine) (m : Words) (h : ℕ → Holdings) (g : ℕ) → Sound n m h → AreEmpty n h → g < n.frames → IsTrue (is_partial (kind_at m g)) → IsNamed n m g }
{}

/// A table is named so by one of a higher level alone. So where no frame has the kept mark and no old word names one, no frame is partial, and the words are at rest.
pub fn words_are_at_rest_where_nothing_is_left()
    ensures { (n : Machine) (m : Words) (h : ℕ → Holdings) → Sound n m h → IsNothingLeft n m h → IsAtRest n m }
{}
