//! Recorded entries of page tables, and descriptors of live pages.
ghost use Rattle.std.specs.Prelude.{◌≡◌, ◌<◌, ◌+◌, ◌*◌, length, ◌≤◌, IsTrue, ◌↔◌, ℕ, Some, MatchOption};
ghost use Rattle.xp_words.specs.declared.place.Place.TheVariants.{Refs, Priv};
ghost use Rattle.xp_words.specs.Entries.{is_lowest};
ghost use Rattle.xp_words.specs.Places.{sizes_of, size, memory};
ghost use Rattle.xp_board.specs.After.{is_fixed};
ghost use Rattle.xp_board.specs.Readings.{kind_at, has_ever, owner_of};
ghost use Rattle.xp_board.specs.Valid.{EntryPermitted, LeadsWell};
ghost use Rattle.reference_recount.specs.Recounted.{IsReadable, no_hands};
ghost use Rattle.walk_audit.specs.Breaks.{IsBadEntry, MayBeAsked, MayLead, MayLeadTyped};
ghost use Rattle.walk_audit.specs.Leads.{LeadsAsRead, words_looked_at};
ghost use Rattle.walk_audit.specs.Order.{FirstVerdict, NoneBreaks};

use crate::verdict::Verdict;
use pte_check::demand;
use word_readers::{cell, kind_of, owner, privileges, recorded_entries};
use xp_words::{Demand, KindWord, Layout, PageType, fix};

/// Whether a domain has or had privilege over another.
fn has_ever(layout: &Layout, words: &[u64], domain: u16, other: u16) -> bool
    requires domain { domain < length layout.now.page_limit }
    requires other { other < length layout.now.page_limit }
    requires words { length words.now ≡ size (sizes_of layout.now) }
    ensures { result ≡ has_ever other (memory (sizes_of layout.now) words.now (Priv domain)) }
{
    // So the prover knows that there are few domains.
    let _domains = layout.domains();
    (privileges(layout, words, domain) >> (16 + u32::from(other))) % 2 == 1
}

/// Whether an entry of a table of that type may lead to the frame: it is of the table's owner, or, at the lowest level, free or one over whose owner
/// that one has or had privilege.
#[tactic(auto, using(crate::proofs::Reading::owner_few))]
fn is_permitted(layout: &Layout, words: &[u64], kind: PageType, table: u32, target: u32) -> bool
    requires table { table < layout.now.frames }
    requires target { target < layout.now.frames }
    requires words { length words.now ≡ size (sizes_of layout.now) }
    requires readable { IsReadable layout.now (memory (sizes_of layout.now) words.now) }
    ensures { IsTrue result ↔ EntryPermitted (memory (sizes_of layout.now) words.now) kind (owner_of (memory (sizes_of layout.now) words.now (Refs table))) target }
{
    let is_lowest = matches!(kind, PageType::L1);
    match owner(layout, words, table) {
        Some(domain) => match owner(layout, words, target) {
            Some(other) => {
                other == domain || is_lowest && has_ever(layout, words, domain, other)
            }
            None => is_lowest,
        },
        None => false,
    }
}

/// Whether entry `index` of a table may lead to a frame of that kind with a type: it is live; or it is partial, and this is the last recorded entry of a
/// partial table.
fn leads_well(table: &KindWord, index: u16, target: &KindWord) -> bool
    requires { index < 512 }
    ensures { IsTrue result ↔ LeadsAsRead table.now index target.now }
{
    let is_partial = !table.validated && table.partial;
    target.validated || target.partial && is_partial && index + 1 == table.progress
}

/// The target of an entry, if the machine has it.
fn in_machine(layout: &Layout, target: u64) -> Option<u32>
    ensures { MatchOption result (layout.now.frames ≤ target) (λ t. (t ≡ target) × (t < layout.now.frames)) }
{
    // So the prover knows that there are few frames.
    let _domains = layout.domains();
    if target < u64::from(layout.frames) {
        Some(target as u32)
    } else {
        None
    }
}

/// Whether an entry of a table may read a frame of that number.
fn may_read(layout: &Layout, words: &[u64], table: u32, target: u64) -> bool
    requires table { table < layout.now.frames }
    requires words { length words.now ≡ size (sizes_of layout.now) }
    requires readable { IsReadable layout.now (memory (sizes_of layout.now) words.now) }
    ensures { IsTrue result ↔ MayLead layout.now (memory (sizes_of layout.now) words.now) table target }
{
    match in_machine(layout, target) {
        Some(target) => {
            let kind = kind_of(layout, words, table).kind;
            is_permitted(layout, words, kind, table, target)
        }
        None => false,
    }
}

fn leads_there(layout: &Layout, words: &[u64], table: u32, index: u16, target: u32) -> bool
    requires table { table < layout.now.frames }
    requires index { index < 512 }
    requires target { target < layout.now.frames }
    requires words { length words.now ≡ size (sizes_of layout.now) }
    requires readable { IsReadable layout.now (memory (sizes_of layout.now) words.now) }
    requires unheld { NoneBreaks layout.now (memory (sizes_of layout.now) words.now) 1 0 layout.now.frames }
    ensures { IsTrue result ↔ LeadsWell (sizes_of layout.now) (memory (sizes_of layout.now) words.now) no_hands table index target }
{
    leads_well(
        &kind_of(layout, words, table),
        index,
        &kind_of(layout, words, target),
    )
}

/// Whether entry `index` of a table may lead with a type to a frame of that number.
fn may_type(layout: &Layout, words: &[u64], table: u32, index: u16, target: u64) -> bool
    requires table { table < layout.now.frames }
    requires index { index < 512 }
    requires words { length words.now ≡ size (sizes_of layout.now) }
    requires readable { IsReadable layout.now (memory (sizes_of layout.now) words.now) }
    requires unheld { NoneBreaks layout.now (memory (sizes_of layout.now) words.now) 1 0 layout.now.frames }
    ensures { IsTrue result ↔ MayLeadTyped layout.now (memory (sizes_of layout.now) words.now) table index target }
{
    match in_machine(layout, target) {
        Some(target) => {
            let kind = kind_of(layout, words, table).kind;
            is_permitted(layout, words, kind, table, target)
                && leads_there(layout, words, table, index, target)
        }
        None => false,
    }
}

/// Whether what a recorded entry asks may be asked there.
fn may_ask(layout: &Layout, words: &[u64], frame: u32, index: u16, asks: Demand) -> bool
    requires frame { frame < layout.now.frames }
    requires index { index < 512 }
    requires words { length words.now ≡ size (sizes_of layout.now) }
    requires readable { IsReadable layout.now (memory (sizes_of layout.now) words.now) }
    requires unheld { NoneBreaks layout.now (memory (sizes_of layout.now) words.now) 1 0 layout.now.frames }
    ensures { IsTrue result ↔ MayBeAsked layout.now (memory (sizes_of layout.now) words.now) frame index asks }
{
    match asks {
        Demand::Nothing => true,
        Demand::Bad => false,
        Demand::Read { frame: target } => may_read(layout, words, frame, target),
        Demand::Typed { frame: target, .. } => may_type(layout, words, frame, index, target),
    }
}

/// Whether the descriptor is its own fixed form.
fn is_fixed(word: u64) -> bool
    ensures { result ≡ is_fixed word }
{
    match fix(word) {
        Some(other) => word == other,
        None => false,
    }
}

/// How many words of the frame are looked at: recorded entries of a table, and all words of a live descriptor page.
fn words_looked_at(kind: &KindWord) -> u16
    ensures { result ≡ words_looked_at kind.now }
{
    let is_page = matches!(kind.kind, PageType::Desc);
    if kind.validated && is_page {
        512
    } else {
        recorded_entries(kind)
    }
}

#[tactic(auto, using(crate::proofs::Leading::recorded_bad, crate::proofs::Leading::recorded_good, crate::proofs::Leading::page_bad, crate::proofs::Leading::page_good))]
fn is_bad_entry(layout: &Layout, words: &[u64], frame: u32, index: u16) -> bool
    requires frame { frame < layout.now.frames }
    requires index { index < words_looked_at (kind_at (memory (sizes_of layout.now) words.now) frame) }
    requires few { index < 512 }
    requires words { length words.now ≡ size (sizes_of layout.now) }
    requires readable { IsReadable layout.now (memory (sizes_of layout.now) words.now) }
    requires unheld { NoneBreaks layout.now (memory (sizes_of layout.now) words.now) 1 0 layout.now.frames }
    ensures { IsTrue result ↔ IsBadEntry layout.now (memory (sizes_of layout.now) words.now) frame index }
{
    let kind = kind_of(layout, words, frame).kind;
    let word = cell(layout, words, frame, index);
    if kind.is_table() {
        !may_ask(layout, words, frame, index, demand(kind, index, word))
    } else {
        !is_fixed(word)
    }
}

#[tactic(auto, using(crate::proofs::Leading::entry_alone))]
fn bad_entry(layout: &Layout, words: &[u64], frame: u32, index: u16) -> Option<Verdict>
    requires frame { frame < layout.now.frames }
    requires index { index < words_looked_at (kind_at (memory (sizes_of layout.now) words.now) frame) }
    requires few { index < 512 }
    requires words { length words.now ≡ size (sizes_of layout.now) }
    requires readable { IsReadable layout.now (memory (sizes_of layout.now) words.now) }
    requires unheld { NoneBreaks layout.now (memory (sizes_of layout.now) words.now) 1 0 layout.now.frames }
    ensures { FirstVerdict layout.now (memory (sizes_of layout.now) words.now) 4 (512 * frame + index) (512 * frame + index + 1) result }
{
    if is_bad_entry(layout, words, frame, index) {
        Some(Verdict::BadEntry { frame, index })
    } else {
        None
    }
}

#[tactic(auto, using(crate::proofs::Leading::looked_few, crate::proofs::Leading::whole_frame))]
fn first_of_frame(layout: &Layout, words: &[u64], frame: u32) -> Option<Verdict>
    requires frame { frame < layout.now.frames }
    requires words { length words.now ≡ size (sizes_of layout.now) }
    requires readable { IsReadable layout.now (memory (sizes_of layout.now) words.now) }
    requires unheld { NoneBreaks layout.now (memory (sizes_of layout.now) words.now) 1 0 layout.now.frames }
    ensures { FirstVerdict layout.now (memory (sizes_of layout.now) words.now) 4 (512 * frame) (512 * frame + 512) result }
{
    let end = words_looked_at(&kind_of(layout, words, frame));
    for index in 0..end {
        if let Some(verdict) = bad_entry(layout, words, frame, index) {
            return Some(verdict);
        }
    }
    None
}

/// The first recorded entry of a table, or word of a live descriptor page, that may not stand there.
pub fn first_bad_entry(layout: &Layout, words: &[u64]) -> Option<Verdict>
    requires words { length words.now ≡ size (sizes_of layout.now) }
    requires readable { IsReadable layout.now (memory (sizes_of layout.now) words.now) }
    requires unheld { NoneBreaks layout.now (memory (sizes_of layout.now) words.now) 1 0 layout.now.frames }
    ensures { FirstVerdict layout.now (memory (sizes_of layout.now) words.now) 4 0 (512 * layout.now.frames) result }
{
    for frame in 0..layout.frames {
        if let Some(verdict) = first_of_frame(layout, words, frame) {
            return Some(verdict);
        }
    }
    None
}
