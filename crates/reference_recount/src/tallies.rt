ghost use Rattle.std.specs.Prelude.{◌≡◌, ◌<◌, ℕ, length, IfOk};
ghost use Rattle.xp_words.specs.Machine.{IsMachine};
ghost use Rattle.xp_words.specs.Places.{size, sizes_of, memory};
ghost use Rattle.reference_recount.specs.Recounted.{IsReadable, IsTally, tally_at};
ghost use Rattle.reference_recount.specs.Growth.{AreKinds, IsOfMarks};

use crate::adding::{add_tables, add_vcpus};
use crate::marks::own_tally;
use std::alloc::{AllocError, Global};
use word_readers::kind_of;
use xp_words::{Layout, PageType};

/// What the recorded references of one frame come to.
#[derive(Clone, Copy, Debug, PartialEq, Eq)]
pub struct Tally {
    /// All of them: of entries, words of vCPUs, its own marks, and the mark of its owner.
    pub refs: u64,
    /// Those that want it of a type.
    pub types: u64,
    /// Whether one of these wants another type than it has.
    pub mistyped: bool,
}

/// The references of each frame, by its number. Each recorded entry is read once. It takes memory for a few numbers a frame, and fails where there is none.
pub fn recount(alloc: Global, layout: &Layout, words: &[u64]) -> Result<Vec<Tally>, AllocError>
    requires machine { IsMachine layout.now }
    requires words { length words.now ≡ size (sizes_of layout.now) }
    requires readable { IsReadable layout.now (memory (sizes_of layout.now) words.now) }
    ensures len { IfOk result (λ v. length v.items ≡ layout.now.frames) }
    ensures each { IfOk result (λ v. (g : ℕ) → g < layout.now.frames → IsTally layout.now (memory (sizes_of layout.now) words.now) g (tally_at v.items g)) }
{
    let kinds = frame_kinds(alloc, layout, words)?;
    let kinds = kinds.as_slice();
    let mut tallies = own_tallies(alloc, layout, words)?;
    add_tables(layout, words, kinds, &mut tallies);
    add_vcpus(layout, words, kinds, &mut tallies);
    Ok(tallies)
}

// The type of each frame. Entries name frames in any order, and to look up each one's kind word took most of the time.
fn frame_kinds(alloc: Global, layout: &Layout, words: &[u64]) -> Result<Vec<PageType>, AllocError>
    requires words { length words.now ≡ size (sizes_of layout.now) }
    requires readable { IsReadable layout.now (memory (sizes_of layout.now) words.now) }
    ensures { IfOk result (λ v. AreKinds (memory (sizes_of layout.now) words.now) layout.now.frames v.items) }
{
    let mut kinds = Vec::with_capacity(alloc, layout.frames as usize)?;
    for frame in 0..layout.frames {
        kinds.push(kind_of(layout, words, frame).kind)?;
    }
    Ok(kinds)
}

// The marks of each frame.
fn own_tallies(alloc: Global, layout: &Layout, words: &[u64]) -> Result<Vec<Tally>, AllocError>
    requires words { length words.now ≡ size (sizes_of layout.now) }
    requires readable { IsReadable layout.now (memory (sizes_of layout.now) words.now) }
    ensures len { IfOk result (λ v. length v.items ≡ layout.now.frames) }
    ensures each { IfOk result (λ v. (g : ℕ) → g < layout.now.frames → IsOfMarks (memory (sizes_of layout.now) words.now) g (tally_at v.items g)) }
{
    let mut tallies = Vec::with_capacity(alloc, layout.frames as usize)?;
    for frame in 0..layout.frames {
        tallies.push(own_tally(layout, words, frame))?;
    }
    Ok(tallies)
}
