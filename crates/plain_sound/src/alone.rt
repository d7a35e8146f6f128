//! Frames that stand in one hand alone.
use crate::sound::Part;
use plain_words::{Hand, Place, State, is_closing, is_marked, is_work, times};
use xp_words::RefWord;

/// How often the frame must stand in that part of all hands; one that the machine has not never.
fn wanted(state: &State, frame: u64, part: Part) -> u64 {
    let kind = state.kind_of(frame);
    let due = match part {
        Part::Dying => matches!(state.refs_of(frame), Some(RefWord::Dying { .. })),
        Part::Works => {
            let closing = is_closing(state.word(Place::Kind { frame }));
            closing || matches!(kind, Some(k) if is_work(&k))
        }
        _ => matches!(kind, Some(k) if k.validated && k.locked),
    };
    u64::from(due)
}

fn standing(hand: &Hand, frame: u64, part: Part) -> u64 {
    match part {
        Part::Dying => hand.alone(frame),
        Part::Works => times(&hand.works, frame),
        _ => times(&hand.locks, frame),
    }
}

/// Each frame that is dying, in work or closing, or locked stands in one hand, once, and no other does.
pub fn holds_alone(state: &State, part: Part) -> bool {
    let mut alone = true;
    for frame in 0..8_u64 {
        let mut count: u64 = 0;
        for hand in &state.hands {
            count = count.saturating_add(standing(hand, frame, part));
        }
        alone = alone && count == wanted(state, frame, part);
    }
    alone
}

/// Nothing is recorded of a marked frame, and a closing one keeps an untyped reference.
pub fn works_bare(state: &State) -> bool {
    let mut bare = true;
    for hand in &state.hands {
        for held in hand.works.iter().flatten() {
            bare = bare && (!is_marked(held.is.word) || held.is.recorded == 0);
            bare = bare && (!is_closing(held.is.word) || 0 < hand.untyped(held.frame));
        }
    }
    bare
}
