//! The frames that domains own and the cells that hold something.
#![tactic(auto, using(crate::proofs::Steps::inside))]

ghost use Rattle.std.specs.Prelude.{◌≡◌, ◌≤◌, ◌<◌, ◌+◌, ◌∷◌, [], ℕ, List, length, reverse, All};
ghost use Rattle.xp_words.specs.declared.place.Place.{Place};
ghost use Rattle.xp_words.specs.Places.{sizes_of, size, memory};
ghost use Rattle.xp_words.specs.Machine.{IsMachine};
ghost use Rattle.trace_text.specs.WellFormed.{IsOwn, IsCellRun};
ghost use Rattle.machine_build.specs.Puts.{with_owned, with_cells};

use sparse_words::SparseWords;
use trace_text::{CellRun, Own};
use xp_words::{Layout, RefWord};

#[tactic(auto, using(crate::proofs::Steps::inside), unfolding(xp_words::specs::RefWords::IsRef))]
fn put_own(layout: &Layout, own: Own, words: &mut SparseWords)
    requires machine { IsMachine layout.now }
    requires inside { IsOwn layout.now own }
    requires count { length words.old ≡ size (sizes_of layout.now) }
    ensures count { length words.new ≡ length words.old }
    ensures words { (p : Place) → memory (sizes_of layout.now) words.new p ≡ with_owned (own ∷ []) (memory (sizes_of layout.now) words.old) p }
{
    let word = RefWord::Owned {
        owner: own.domain,
        allocated: true,
        count: 1,
    }
    .write();
    for frame in own.first..own.first + own.count {
        words.set(layout.refs_place(frame), word);
    }
}

/// From the last run to the first, so that a frame has the word of the first run that has it.
pub fn put_owned(layout: &Layout, owned: &[Own], words: &mut SparseWords)
    requires machine { IsMachine layout.now }
    requires inside { All (IsOwn layout.now) owned.now }
    requires count { length words.old ≡ size (sizes_of layout.now) }
    ensures count { length words.new ≡ length words.old }
    ensures words { (p : Place) → memory (sizes_of layout.now) words.new p ≡ with_owned owned.now (memory (sizes_of layout.now) words.old) p }
{
    for own in owned.iter().rev() {
        put_own(layout, *own, words);
    }
}

fn put_run(layout: &Layout, run: CellRun, words: &mut SparseWords)
    requires inside { IsCellRun layout.now.frames run }
    requires count { length words.old ≡ size (sizes_of layout.now) }
    ensures count { length words.new ≡ length words.old }
    ensures words { (p : Place) → memory (sizes_of layout.now) words.new p ≡ with_cells (run ∷ []) (memory (sizes_of layout.now) words.old) p }
{
    words.fill(layout, run.frame, run.first, run.count, run.value);
}

/// The cells that runs set. A later run overwrites an earlier one.
pub fn put_cells(layout: &Layout, cells: &[CellRun], words: &mut SparseWords)
    requires inside { All (IsCellRun layout.now.frames) cells.now }
    requires count { length words.old ≡ size (sizes_of layout.now) }
    ensures count { length words.new ≡ length words.old }
    ensures words { (p : Place) → memory (sizes_of layout.now) words.new p ≡ with_cells (reverse cells.now) (memory (sizes_of layout.now) words.old) p }
{
    for run in cells {
        put_run(layout, *run, words);
    }
}
