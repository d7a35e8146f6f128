//! What recorded entries, words of vCPUs and descriptor pages lead to.
use plain_words::{CellWord, Finding, Place, State, bit_of, names_frames, newest};
use xp_words::{Demand, KindWord, PageType, fix};

/// No recorded entry has a reserved bit set.
pub fn entries_allowed(state: &State) -> bool {
    let mut allowed = true;
    for entry in &state.cells {
        if let Some(cell) = entry {
            allowed = allowed && state.recorded_demand(*cell) != Demand::Bad;
        }
    }
    allowed
}

/// A typed entry leads to a live frame; the last of a partial table and an unsettled one may lead to a frame in
/// partial or in work.
pub fn entries_live(state: &State) -> bool {
    let mut live = true;
    for entry in &state.cells {
        if let Some(cell) = entry {
            if let Demand::Typed { frame, .. } = state.recorded_demand(*cell) {
                live = live && leads_well(state, *cell, frame);
            }
        }
    }
    live
}

fn leads_well(state: &State, cell: CellWord, frame: u64) -> bool {
    match state.kind_of(frame) {
        Some(kind) if kind.validated => true,
        Some(kind) if kind.partial || kind.locked => {
            is_last_of_partial(state, cell) || is_unsettled(state, cell, frame)
        }
        _ => false,
    }
}

fn is_last_of_partial(state: &State, cell: CellWord) -> bool {
    match state.kind_of(cell.frame) {
        Some(kind) => {
            let last = cell.index.saturating_add(1) == u64::from(kind.progress);
            !kind.validated && kind.partial && last
        }
        None => false,
    }
}

fn is_unsettled(state: &State, cell: CellWord, frame: u64) -> bool {
    let mut open = false;
    for hand in &state.hands {
        if let Some(work) = newest(&hand.works, cell.frame) {
            if let Some(unsettled) = work.unsettled {
                let last = cell.index.saturating_add(1) == work.recorded;
                let place = Place::Kind { frame };
                let found = hand.found_since(unsettled.since, place, Finding::Live);
                open = open || (last && !found);
            }
        }
    }
    open
}

fn is_live_as(kind: Option<KindWord>, want: PageType) -> bool {
    matches!(kind, Some(word) if word.validated && word.kind == want)
}

/// The words of live descriptor pages are fixed; a word of 0 is.
pub fn descriptors_fixed(state: &State) -> bool {
    let mut fixed = true;
    for entry in &state.cells {
        if let Some(cell) = entry {
            let live = is_live_as(state.kind_of(cell.frame), PageType::Desc);
            fixed = fixed && (!live || fix(cell.word) == Some(cell.word));
        }
    }
    fixed
}

/// Base, user, GDT and LDT words name live frames.
pub fn contexts_live(state: &State) -> bool {
    let mut live = true;
    for words in &state.vcpus {
        let mut number: u64 = 0;
        for word in words {
            if names_frames(number) && number != 2 && number != 3 && 0 < *word {
                let named = state.kind_of(word.saturating_sub(1));
                live = live && matches!(named, Some(kind) if kind.validated);
            }
            number = number.saturating_add(1);
        }
    }
    live
}

/// Entries of levels 2 to 4 and words of vCPUs stay in the owner's domain; entries of level 1 lead to what that
/// domain owns or ever had privilege over, or to a free frame.
pub fn stays_permitted(state: &State) -> bool {
    let mut stays = true;
    for entry in &state.cells {
        if let Some(cell) = entry {
            match state.recorded_demand(*cell) {
                Demand::Read { frame } => {
                    stays = stays && permits(state, cell.frame, frame, true);
                }
                Demand::Typed { frame, kind } => {
                    let lowest = kind == PageType::Writable;
                    stays = stays && permits(state, cell.frame, frame, lowest);
                }
                _ => {}
            }
        }
    }
    stays && contexts_stay(state)
}

fn permits(state: &State, table: u64, frame: u64, lowest: bool) -> bool {
    let Some(domain) = state.owner_at(table) else {
        return false;
    };
    match state.owner_at(frame) {
        Some(owner) if owner == domain => true,
        Some(owner) => match state.privileges.get(usize::from(domain)) {
            Some(word) => lowest && bit_of(*word, u64::from(owner) + 16),
            None => false,
        },
        None => lowest,
    }
}

fn contexts_stay(state: &State) -> bool {
    let mut stays = true;
    let mut vcpu: u16 = 0;
    for words in &state.vcpus {
        let mut number: u64 = 0;
        for word in words {
            if names_frames(number) && number != 2 && number != 3 && 0 < *word {
                let owner = state.owner_at(word.saturating_sub(1));
                stays = stays && owner.is_some() && owner == state.domain_of(vcpu);
            }
            number = number.saturating_add(1);
        }
        vcpu = vcpu.saturating_add(1);
    }
    stays
}
