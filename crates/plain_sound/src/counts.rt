//! The two counts of each frame, counted again, and the pages of each domain.
use plain_words::{FRAMES, Hand, State, names_frames, owner_of};
use xp_words::{Demand, PageType, RefWord};

/// Whether a demand names the frame, and whether it does so with a type.
fn names(demand: Demand, frame: u64) -> (bool, bool) {
    match demand {
        Demand::Read { frame: named } => (named == frame, false),
        Demand::Typed { frame: named, .. } => (named == frame, named == frame),
        _ => (false, false),
    }
}

/// The recorded entries that name the frame: all of them, or the typed ones alone.
fn entries(state: &State, frame: u64, typed_alone: bool) -> u64 {
    let mut count: u64 = 0;
    for entry in &state.cells {
        if let Some(cell) = entry {
            let (named, typed) = names(state.recorded_demand(*cell), frame);
            if named && (typed || !typed_alone) {
                count = count.saturating_add(1);
            }
        }
    }
    count
}

/// The words of vCPUs that name the frame.
fn contexts(state: &State, frame: u64) -> u64 {
    let mut count: u64 = 0;
    for words in &state.vcpus {
        let mut number: u64 = 0;
        for word in words {
            if names_frames(number) && 0 < *word && *word - 1 == frame {
                count = count.saturating_add(1);
            }
            number = number.saturating_add(1);
        }
    }
    count
}

/// The pinned and the `kept` mark.
fn marks(state: &State, frame: u64) -> u64 {
    match state.kind_of(frame) {
        Some(kind) => u64::from(kind.pinned) + u64::from(kind.kept),
        None => 0,
    }
}

fn in_hands(state: &State, frame: u64, typed_alone: bool) -> u64 {
    let mut count: u64 = 0;
    for hand in &state.hands {
        let more = if typed_alone {
            hand.typed_all(frame)
        } else {
            hand.all(frame)
        };
        count = count.saturating_add(more);
    }
    count
}

/// All references to a frame: to one that the machine has not there may be none.
pub fn references_agree(state: &State) -> bool {
    let mut agree = !names_outside(state, false);
    for frame in 0..FRAMES {
        let (count, allocated) = match state.refs_of(frame) {
            Some(
                RefWord::Owned {
                    count,
                    allocated,
                    ..
                },
            ) => (u64::from(count), u64::from(allocated)),
            _ => (0, 0),
        };
        let named = entries(state, frame, false)
            .saturating_add(contexts(state, frame))
            .saturating_add(marks(state, frame))
            .saturating_add(in_hands(state, frame, false))
            .saturating_add(allocated);
        agree = agree && count == named;
    }
    agree
}

/// Whether a recorded entry, a word of a vCPU or a hand names a frame that the machine has not.
fn names_outside(state: &State, typed_alone: bool) -> bool {
    let mut outside = false;
    for cell in state.cells.iter().flatten() {
        outside = outside
            || match state.recorded_demand(*cell) {
                Demand::Read { frame } => !typed_alone && FRAMES <= frame,
                Demand::Typed { frame, .. } => FRAMES <= frame,
                _ => false,
            };
    }
    for words in &state.vcpus {
        let mut number: u64 = 0;
        for word in words {
            outside = outside || (names_frames(number) && FRAMES < *word);
            number = number.saturating_add(1);
        }
    }
    for hand in &state.hands {
        outside = outside || hand_names_outside(hand, typed_alone);
    }
    outside
}

fn hand_names_outside(hand: &Hand, typed_alone: bool) -> bool {
    let mut outside = false;
    for held in hand.refs.iter().flatten() {
        outside = outside || (!typed_alone && FRAMES <= held.frame);
    }
    for held in hand.typed.iter().flatten() {
        outside = outside || FRAMES <= held.frame;
    }
    for held in hand.locks.iter().flatten() {
        outside = outside || FRAMES <= held.frame;
    }
    outside
}

/// The typed references to a frame. In work and partial it has one type count.
pub fn types_agree(state: &State) -> bool {
    let mut agree = !names_outside(state, true);
    for frame in 0..FRAMES {
        let count = match state.kind_of(frame) {
            Some(kind) if kind.validated => kind.number,
            Some(kind) if kind.partial || kind.locked => 1,
            _ => 0,
        };
        let named = entries(state, frame, true)
            .saturating_add(contexts(state, frame))
            .saturating_add(marks(state, frame))
            .saturating_add(in_hands(state, frame, true));
        agree = agree && count == named;
    }
    agree
}

fn has_type(state: &State, frame: u64, kind: PageType) -> bool {
    match state.kind_of(frame) {
        Some(word) => word.kind == kind,
        None => kind == PageType::None,
    }
}

/// The type that a word of a vCPU asks: an old word tells none.
fn context_type(word: u64) -> Option<PageType> {
    match word {
        0 | 1 => Some(PageType::L4),
        2 | 3 => None,
        _ => Some(PageType::Desc),
    }
}

/// Each typed reference has the type of its frame.
pub fn kinds_agree(state: &State) -> bool {
    let mut agree = true;
    for entry in &state.cells {
        if let Some(cell) = entry {
            if let Demand::Typed { frame, kind } = state.recorded_demand(*cell) {
                agree = agree && has_type(state, frame, kind);
            }
        }
    }
    for words in &state.vcpus {
        let mut number: u64 = 0;
        for word in words {
            if let (true, Some(kind)) = (names_frames(number) && 0 < *word, context_type(number)) {
                agree = agree && has_type(state, word.saturating_sub(1), kind);
            }
            number = number.saturating_add(1);
        }
    }
    for hand in &state.hands {
        agree = agree && hand_kinds_agree(state, hand);
    }
    agree
}

fn hand_kinds_agree(state: &State, hand: &Hand) -> bool {
    let mut agree = true;
    for entry in &hand.typed {
        if let Some(held) = entry {
            if let Some(kind) = held.is.kind {
                agree = agree && has_type(state, held.frame, kind);
            }
        }
    }
    for entry in &hand.locks {
        if let Some(held) = entry {
            agree = agree && has_type(state, held.frame, held.is.kind);
        }
    }
    agree
}

/// A domain's number of pages: its frames, and the credits in all hands.
pub fn pages_agree(state: &State) -> bool {
    let mut agree = true;
    let mut domain: u16 = 0;
    for pages in &state.pages {
        let mut count: u64 = 0;
        for frame in &state.frames {
            if owner_of(frame.refs) == Some(domain) {
                count = count.saturating_add(1);
            }
        }
        for hand in &state.hands {
            count = count.saturating_add(hand.credits_of(domain));
        }
        agree = agree && *pages == count;
        domain = domain.saturating_add(1);
    }
    agree
}
