//! References, added to the tallies of the frames that they name.
//!
//! No count overflows: it begins with at most 3 marks, and a table adds at most 1,024 and a vCPU at most 38. The clauses `few` say so from above, with room
//! to spare.
ghost use Rattle.std.specs.Prelude.{◌≡◌, ◌<◌, ◌^◌, length, if◌then◌else◌};
ghost use Rattle.xp_words.specs.Places.{size, sizes_of, memory};
ghost use Rattle.xp_board.specs.Lists.{one_at};
ghost use Rattle.xp_board.specs.Readings.{is_context};
ghost use Rattle.xp_board.specs.ContextSteps.{context_type};
ghost use Rattle.xp_board.specs.Recorded.{names, names_typed, table_entries};
ghost use Rattle.xp_board.specs.Sums.{sum_below};
ghost use Rattle.reference_recount.specs.Recounted.{IsReadable};
ghost use Rattle.reference_recount.specs.Growth.{AreMore, AreSums, IsCountWithin, is_other_type, names_other, context_names, context_other};

use crate::tallies::Tally;
use pte_check::demand;
use word_readers::{cell, kind_of, recorded_entries, vcpu_word};
use xp_words::{Demand, Layout, PageType};

// One reference to the frame, if the machine has it.
fn add(tallies: &mut Vec<Tally>, frame: u64, typed: bool, other: bool)
    requires { IsCountWithin (2 ^ 60) tallies.old.items }
    ensures { AreMore tallies.old.items tallies.new.items (λ g. one_at g frame) (λ g. if typed then one_at g frame else 0) (λ g. if other then one_at g frame else 0) }
{
    if frame < tallies.len() as u64 {
        let tally = &mut tallies[frame as usize];
        tally.refs += 1;
        tally.types += u64::from(typed);
        tally.mistyped = tally.mistyped || other;
    }
}

// Whether the frame has another type than the one that is wanted. Of one that the machine has not nothing is said.
fn is_other_type(kinds: &[PageType], frame: u64, want: Option<PageType>) -> bool
    ensures { frame < length kinds.now → result ≡ is_other_type kinds.now frame want }
{
    match want {
        Some(kind) if frame < kinds.len() as u64 => kinds[frame as usize] != kind,
        _ => false,
    }
}

// What one entry asks.
fn add_demand(kinds: &[PageType], demand: Demand, tallies: &mut Vec<Tally>)
    requires frames { length tallies.old.items ≡ length kinds.now }
    requires few { IsCountWithin (2 ^ 60) tallies.old.items }
    ensures { AreMore tallies.old.items tallies.new.items (λ g. names g demand) (λ g. names_typed g demand) (λ g. names_other kinds.now g demand) }
{
    match demand {
        Demand::Nothing | Demand::Bad => {}
        Demand::Read { frame } => add(tallies, frame, false, false),
        Demand::Typed { frame, kind } => {
            let other = is_other_type(kinds, frame, Some(kind));
            add(tallies, frame, true, other);
        }
    }
}

// The recorded entries of one frame.
fn add_table(
    layout: &Layout,
    words: &[u64],
    kinds: &[PageType],
    frame: u32,
    tallies: &mut Vec<Tally>,
)
    requires sized { length words.now ≡ size (sizes_of layout.now) }
    requires readable { IsReadable layout.now (memory (sizes_of layout.now) words.now) }
    requires frame { frame < layout.now.frames }
    requires frames { length tallies.old.items ≡ length kinds.now }
    requires few { IsCountWithin (2 ^ 50) tallies.old.items }
    ensures { AreMore tallies.old.items tallies.new.items
        (λ g. table_entries (names g) (memory (sizes_of layout.now) words.now) None frame)
        (λ g. table_entries (names_typed g) (memory (sizes_of layout.now) words.now) None frame)
        (λ g. table_entries (names_other kinds.now g) (memory (sizes_of layout.now) words.now) None frame) }
{
    let kind = kind_of(layout, words, frame);
    let end = recorded_entries(&kind);
    for index in 0..end {
        let word = cell(layout, words, frame, index);
        add_demand(kinds, demand(kind.kind, index, word), tallies);
    }
}

/// The recorded entries of all frames.
pub fn add_tables(layout: &Layout, words: &[u64], kinds: &[PageType], tallies: &mut Vec<Tally>)
    requires sized { length words.now ≡ size (sizes_of layout.now) }
    requires readable { IsReadable layout.now (memory (sizes_of layout.now) words.now) }
    requires frames { length tallies.old.items ≡ length kinds.now }
    requires few { IsCountWithin 3 tallies.old.items }
    ensures { AreSums tallies.old.items tallies.new.items layout.now.frames
        (λ g f. table_entries (names g) (memory (sizes_of layout.now) words.now) None f)
        (λ g f. table_entries (names_typed g) (memory (sizes_of layout.now) words.now) None f)
        (λ g f. table_entries (names_other kinds.now g) (memory (sizes_of layout.now) words.now) None f) }
{
    for frame in 0..layout.frames {
        add_table(layout, words, kinds, frame, tallies);
    }
}

// Whether word `number` of a vCPU may name a frame: its bases, its old words, and those of its GDT and LDT.
fn is_context(number: u32) -> bool
    ensures { result ≡ is_context number }
{
    number < 4 || 8 <= number
}

// The type that such a word wants; an old word takes any.
fn context_type(number: u32) -> Option<PageType>
    ensures { result ≡ context_type number }
{
    match number {
        0 | 1 => Some(PageType::L4),
        2 | 3 => None,
        _ => Some(PageType::Desc),
    }
}

// What one word of a vCPU names.
fn add_context(
    layout: &Layout,
    words: &[u64],
    kinds: &[PageType],
    vcpu: u32,
    number: u32,
    tallies: &mut Vec<Tally>,
)
    requires sized { length words.now ≡ size (sizes_of layout.now) }
    requires vcpu { vcpu < length layout.now.vcpu_domain }
    requires number { number < 38 }
    requires frames { length tallies.old.items ≡ length kinds.now }
    requires few { IsCountWithin (2 ^ 60) tallies.old.items }
    ensures { AreMore tallies.old.items tallies.new.items
        (λ g. context_names (memory (sizes_of layout.now) words.now) vcpu g number)
        (λ g. context_names (memory (sizes_of layout.now) words.now) vcpu g number)
        (λ g. context_other kinds.now (memory (sizes_of layout.now) words.now) vcpu g number) }
{
    let word = vcpu_word(layout, words, vcpu, number);
    if is_context(number) && 0 < word {
        let other = is_other_type(kinds, word - 1, context_type(number));
        add(tallies, word - 1, true, other);
    }
}

// The words of one vCPU.
fn add_vcpu(layout: &Layout, words: &[u64], kinds: &[PageType], vcpu: u32, tallies: &mut Vec<Tally>)
    requires sized { length words.now ≡ size (sizes_of layout.now) }
    requires vcpu { vcpu < length layout.now.vcpu_domain }
    requires frames { length tallies.old.items ≡ length kinds.now }
    requires few { IsCountWithin (2 ^ 50) tallies.old.items }
    ensures { AreSums tallies.old.items tallies.new.items 38
        (λ g k. context_names (memory (sizes_of layout.now) words.now) vcpu g k)
        (λ g k. context_names (memory (sizes_of layout.now) words.now) vcpu g k)
        (λ g k. context_other kinds.now (memory (sizes_of layout.now) words.now) vcpu g k) }
{
    for number in 0..38 {
        add_context(layout, words, kinds, vcpu, number, tallies);
    }
}

/// The words of all vCPUs.
pub fn add_vcpus(layout: &Layout, words: &[u64], kinds: &[PageType], tallies: &mut Vec<Tally>)
    requires sized { length words.now ≡ size (sizes_of layout.now) }
    requires frames { length tallies.old.items ≡ length kinds.now }
    requires few { IsCountWithin (2 ^ 48) tallies.old.items }
    ensures { AreSums tallies.old.items tallies.new.items (length layout.now.vcpu_domain)
        (λ g v. sum_below 38 (λ k. context_names (memory (sizes_of layout.now) words.now) v g k))
        (λ g v. sum_below 38 (λ k. context_names (memory (sizes_of layout.now) words.now) v g k))
        (λ g v. sum_below 38 (λ k. context_other kinds.now (memory (sizes_of layout.now) words.now) v g k)) }
{
    for vcpu in 0..layout.vcpus() {
        add_vcpu(layout, words, kinds, vcpu, tallies);
    }
}
