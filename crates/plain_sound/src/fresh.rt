//! What the vCPUs' translations can lead to, though they may be old.
use plain_words::{
    CellWord, FRAMES, Finding, Hand, Place, State, bit_of, free_stamp, is_dead, is_free, is_walked,
    times,
};
use xp_words::{Entry, KindWord};

/// The uses that translations make of a frame: as a table of a level up to 4, to write it, to read it.
#[derive(Clone, Copy)]
pub struct Uses {
    pub tables: [bool; 5],
    pub writes: bool,
    pub reads: bool,
}

const NO_USES: Uses = Uses {
    tables: [false; 5],
    writes: false,
    reads: false,
};

/// One use of a frame.
#[derive(Clone, Copy, PartialEq)]
enum Use {
    Table { level: u64 },
    Writes,
    Reads,
}

const ALL_USES: [Use; 7] = [
    Use::Table { level: 0 },
    Use::Table { level: 1 },
    Use::Table { level: 2 },
    Use::Table { level: 3 },
    Use::Table { level: 4 },
    Use::Writes,
    Use::Reads,
];

impl Uses {
    fn has(&self, made: Use) -> bool {
        match made {
            Use::Table { level } => matches!(self.tables.get(level as usize), Some(true)),
            Use::Writes => self.writes,
            Use::Reads => self.reads,
        }
    }

    /// How many uses there are but to read it.
    fn kinds(&self) -> u64 {
        let mut count = u64::from(self.writes);
        for table in &self.tables {
            count = count.saturating_add(u64::from(*table));
        }
        count
    }

    /// Whether there is a use but to read it.
    pub fn is_more_than_read(&self) -> bool {
        0 < self.kinds()
    }
}

/// Adds a use of a frame; frames from 8 on are not looked at.
fn add(uses: &mut [Uses; 8], frame: u64, made: Use) {
    if let Some(slot) = uses.get_mut(frame as usize) {
        match made {
            Use::Table { level } => {
                if let Some(table) = slot.tables.get_mut(level as usize) {
                    *table = true;
                }
            }
            Use::Writes => slot.writes = true,
            Use::Reads => slot.reads = true,
        }
    }
}

fn access(writable: bool) -> Use {
    if writable { Use::Writes } else { Use::Reads }
}

/// What the cache and the walk in flight lead to by themselves.
fn begins(hand: &Hand) -> [Uses; 8] {
    let mut uses = [NO_USES; 8];
    for item in hand.cache.iter().flatten() {
        add(&mut uses, item.frame, access(item.writable));
    }
    if let Some(walk) = hand.walk {
        for reached in walk.reached.iter().flatten() {
            add(
                &mut uses,
                reached.table,
                Use::Table {
                    level: reached.level,
                },
            );
        }
    }
    uses
}

/// A present entry of a table leads on to its frame.
fn leads_on(uses: &mut [Uses; 8], cell: &CellWord, level: u64) {
    let entry = Entry { word: cell.word };
    if is_walked(level, cell.index) && entry.present() && entry.frame() < FRAMES {
        let made = if level == 1 {
            access(entry.writable())
        } else {
            Use::Table {
                level: level.saturating_sub(1),
            }
        };
        add(uses, entry.frame(), made);
    }
}

/// All that the vCPU can come to: four rounds reach all of it.
fn reach(state: &State, vcpu: u16) -> [Uses; 8] {
    let mut uses = match state.hands.get(usize::from(vcpu)) {
        Some(hand) => begins(hand),
        None => [NO_USES; 8],
    };
    for _ in 0..4 {
        for cell in state.cells.iter().flatten() {
            for level in 0..5_u64 {
                let table = Use::Table { level };
                if matches!(uses.get(cell.frame as usize), Some(of) if of.has(table)) {
                    leads_on(&mut uses, cell, level);
                }
            }
        }
    }
    uses
}

/// The uses that the vCPU can make of a frame.
pub fn comes_to(state: &State, vcpu: u16, frame: u64) -> Uses {
    match reach(state, vcpu).get(frame as usize) {
        Some(uses) => *uses,
        None => NO_USES,
    }
}

/// Each frame that a vCPU can come to bears it.
pub fn is_fresh(state: &State) -> bool {
    let mut fresh = true;
    for vcpu in 0..2_u16 {
        let reached = reach(state, vcpu);
        let mut frame: u64 = 0;
        for uses in &reached {
            for made in ALL_USES {
                fresh = fresh && (!uses.has(made) || is_fresh_at(state, vcpu, frame, made));
            }
            frame = frame.saturating_add(1);
        }
    }
    fresh
}

fn is_fresh_at(state: &State, vcpu: u16, frame: u64, made: Use) -> bool {
    let flushed = state.word(Place::Vcpu { vcpu, word: 5 });
    let refs = state.word(Place::Refs { frame });
    let mut fresh = belongs(state, vcpu, frame, made)
        && (!is_free(refs) || flushed <= free_stamp(refs))
        && (made == Use::Reads || bears(state, flushed, frame, made));
    for hand in &state.hands {
        fresh = fresh && times(&hand.claimed, frame) == 0;
        fresh = fresh && is_awaited(hand, flushed, frame, made);
    }
    fresh
}

/// A table is free or the own domain's; what is written or read is permitted to it.
fn belongs(state: &State, vcpu: u16, frame: u64, made: Use) -> bool {
    match (state.owner_at(frame), state.domain_of(vcpu)) {
        (Some(owner), Some(domain)) => {
            let ever = bit_of(state.word(Place::Priv { domain }), u64::from(owner) + 16);
            let table = matches!(made, Use::Table { .. });
            owner == domain || (ever && !table)
        }
        (None, _) => true,
        _ => false,
    }
}

/// The frame has the type, unmarked; or it is marked and the vCPU was not flushed since. Nor was it since a dead
/// word's stamp.
fn bears(state: &State, flushed: u64, frame: u64, made: Use) -> bool {
    let Some(kind) = KindWord::read(state.word(Place::Kind { frame })) else {
        return false;
    };
    let fits = match made {
        Use::Table { level } => kind.kind.number() == level,
        Use::Writes => kind.kind.number() == 7,
        Use::Reads => true,
    };
    let old = flushed <= kind.number;
    let typed = if kind.unflushed { old } else { fits };
    typed && (!is_dead(&kind) || old)
}

/// The vCPU was not flushed since a clock value that a vCPU has found while the frame was ending, or in work, in
/// its hand.
fn is_awaited(hand: &Hand, flushed: u64, frame: u64, made: Use) -> bool {
    let least = Finding::AtLeast { word: flushed };
    let mut awaited = true;
    for held in hand.ending.iter().flatten() {
        let since = hand.each_since(held.is.since, Place::Clock, least);
        awaited = awaited && (held.frame != frame || since);
    }
    for held in hand.works.iter().flatten() {
        let since = hand.each_since(held.is.since, Place::Clock, least);
        awaited = awaited && (made == Use::Reads || held.frame != frame || since);
    }
    awaited
}

/// All uses of a frame, but to read it, are one.
pub fn has_one_use(state: &State) -> bool {
    let mut one = true;
    for frame in 0..8_u64 {
        let mut of_both = comes_to(state, 0, frame);
        let other = comes_to(state, 1, frame);
        for level in 0..5_usize {
            of_both.tables[level] = of_both.tables[level] || other.tables[level];
        }
        of_both.writes = of_both.writes || other.writes;
        one = one && of_both.kinds() <= 1;
    }
    one
}
