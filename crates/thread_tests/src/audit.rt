//! The two counts of each frame, counted again from the words that a run leaves, when all hands are empty.
use pte_check::demand;
use sparse_words::SparseWords;
use std::alloc::{AllocError, Global};
use xp_words::{Demand, KindWord, Layout, RefWord};

// How many recorded references name each frame: all of them, and those with a type.
#[derive(Drop)]
struct Counts {
    all: Vec<u64>,
    typed: Vec<u64>,
}

// None where the machine has no such frame.
fn count(counts: &mut [u64], frame: u64) -> Option<()> {
    let count = counts.get_mut(usize::try_from(frame).ok()?)?;
    *count = count.saturating_add(1);
    Some(())
}

impl Counts {
    fn new(alloc: Global, frames: u32) -> Result<Counts, AllocError> {
        let mut all = Vec::new(alloc);
        let mut typed = Vec::new(alloc);
        for _ in 0..frames {
            all.push(0)?;
            typed.push(0)?;
        }
        Ok(Counts { all, typed })
    }

    fn name(&mut self, frame: u64, has_type: bool) -> Option<()> {
        if has_type {
            count(&mut self.typed, frame)?;
        }
        count(&mut self.all, frame)
    }
}

fn word(words: &SparseWords, place: u32) -> u64 {
    if place < words.len() {
        words.get(place)
    } else {
        0
    }
}

// How many of the first entries of a frame hold references. No frame is in work.
fn recorded(kind: &KindWord) -> u16 {
    if !kind.kind.is_table() {
        0
    } else if kind.validated {
        512
    } else if kind.partial {
        kind.progress.min(512)
    } else {
        0
    }
}

fn count_entries(
    counts: &mut Counts,
    layout: &Layout,
    words: &SparseWords,
    frame: u32,
    kind: &KindWord,
) -> Option<()> {
    if layout.frames <= frame {
        return None;
    }
    for index in 0..recorded(kind) {
        if 512 <= index {
            return None;
        }
        match demand(
            kind.kind,
            index,
            word(words, layout.cell_place(frame, index)),
        ) {
            Demand::Read { frame } => counts.name(frame, false)?,
            Demand::Typed { frame, .. } => counts.name(frame, true)?,
            Demand::Nothing | Demand::Bad => {}
        }
    }
    Some(())
}

// The kernel's and the user's base, the two old words, and the pages of the GDT and the LDT.
fn count_contexts(counts: &mut Counts, layout: &Layout, words: &SparseWords) -> Option<()> {
    for vcpu in 0..layout.vcpus() {
        for number in 0..38 {
            let names = number < 4 || 8 <= number;
            let named = word(words, layout.vcpu_place(vcpu, number));
            if names && named != 0 {
                counts.name(named - 1, true)?;
            }
        }
    }
    Some(())
}

fn count_all(
    alloc: Global,
    layout: &Layout,
    words: &SparseWords,
) -> Result<Option<Counts>, AllocError> {
    let mut counts = Counts::new(alloc, layout.frames)?;
    for frame in 0..layout.frames {
        let Some(kind) = KindWord::read(word(words, layout.kind_place(frame))) else {
            return Ok(None);
        };
        for mark in [kind.pinned, kind.kept] {
            if mark && counts.name(u64::from(frame), true).is_none() {
                return Ok(None);
            }
        }
        if count_entries(&mut counts, layout, words, frame, &kind).is_none() {
            return Ok(None);
        }
    }
    Ok(count_contexts(&mut counts, layout, words).map(|_| counts))
}

// A frame that nobody owns has no references. A partial frame has one type count.
fn agrees_at(counts: &Counts, layout: &Layout, words: &SparseWords, frame: u32) -> Option<bool> {
    if layout.frames <= frame {
        return None;
    }
    let all = *counts.all.get(frame as usize)?;
    let typed = *counts.typed.get(frame as usize)?;
    let kind = KindWord::read(word(words, layout.kind_place(frame)))?;
    let refs = match RefWord::read(word(words, layout.refs_place(frame)))? {
        RefWord::Owned {
            count,
            allocated,
            ..
        } => all.saturating_add(u64::from(allocated)) == u64::from(count),
        RefWord::Free { .. } => all == 0,
        RefWord::Dying { .. } => false,
    };
    let types = if kind.validated {
        kind.number
    } else {
        u64::from(kind.partial)
    };
    Some(refs && typed == types && !kind.locked)
}

/// Whether every frame's two counts are the recorded references to it, and nothing is locked, in work or dying.
pub fn counts_agree(
    alloc: Global,
    layout: &Layout,
    words: &SparseWords,
) -> Result<bool, AllocError> {
    let Some(counts) = count_all(alloc, layout, words)? else {
        return Ok(false);
    };
    for frame in 0..layout.frames {
        if agrees_at(&counts, layout, words, frame) != Some(true) {
            return Ok(false);
        }
    }
    Ok(true)
}

/// How many frames are live page tables.
pub fn live_tables(layout: &Layout, words: &SparseWords) -> u32 {
    let mut count: u32 = 0;
    for frame in 0..layout.frames {
        let kind = KindWord::read(word(words, layout.kind_place(frame)));
        if kind.is_some_and(|kind| kind.validated && kind.kind.is_table()) {
            count = count.saturating_add(1);
        }
    }
    count
}
