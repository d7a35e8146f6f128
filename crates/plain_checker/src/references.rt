//! Steps on a frame's owner and reference count.
use plain_words::{FRAMES, Finding, Hand, Place, STEPS, State, is_past, newest, times, with_bit};
use xp_board::Act;
use xp_words::RefWord;

/// One up, the mark off, a claim; one down; a frame that becomes free or is given.
pub fn allows(state: &State, hand: &Hand, domain: u16, frame: u64, act: Act) -> bool {
    match act {
        Act::Cas { expected, new } => match (RefWord::read(expected), RefWord::read(new)) {
            (Some(old), Some(left)) => exchanges(state, hand, domain, frame, old, left),
            _ => false,
        },
        Act::Add { by } => by == u64::MAX && hand.spares(frame),
        Act::Store { new } => match RefWord::read(new) {
            Some(RefWord::Free { stamp }) => frees(hand, frame, stamp),
            Some(left) => gives(hand, domain, frame, left),
            None => false,
        },
        _ => false,
    }
}

fn exchanges(
    state: &State,
    hand: &Hand,
    domain: u16,
    frame: u64,
    old: RefWord,
    left: RefWord,
) -> bool {
    match (old, left) {
        (
            RefWord::Owned {
                owner,
                allocated,
                count,
            },
            RefWord::Owned {
                owner: other,
                allocated: mark,
                count: number,
            },
        ) => {
            let raises = count < state.limit
                && mark == allocated
                && number == count.saturating_add(1);
            let clears = allocated && !mark && number == count;
            owner == other && (raises || clears)
        }
        (RefWord::Free { stamp }, RefWord::Dying { owner }) => {
            owner == domain && 0 < hand.credits_of(domain) && is_unreachable(hand, frame, stamp)
        }
        _ => false,
    }
}

/// The stamp was found, and after that each vCPU was found past it.
fn is_unreachable(hand: &Hand, frame: u64, stamp: u64) -> bool {
    let mut unreachable = false;
    for since in 0..=STEPS {
        let place = Place::Refs { frame };
        if hand.found_between(0, since, place, Finding::Equal { word: stamp })
            && is_past(hand, since, stamp, 0)
            && is_past(hand, since, stamp, 1)
        {
            unreachable = true;
        }
    }
    unreachable
}

/// The frame becomes free: ending, with a clock value found since, or claimed, with its old stamp.
fn frees(hand: &Hand, frame: u64, stamp: u64) -> bool {
    let told = match (newest(&hand.ending, frame), newest(&hand.claimed, frame)) {
        (Some(ending), _) => {
            hand.found_since(ending.since, Place::Clock, Finding::Equal { word: stamp })
        }
        (None, Some(claimed)) => claimed.stamp == stamp,
        (None, None) => false,
    };
    told && 0 < hand.raises(frame)
}

/// A scrubbed frame whose bit is cleared goes to the own domain.
fn gives(hand: &Hand, domain: u16, frame: u64, left: RefWord) -> bool {
    let given = RefWord::Owned {
        owner: domain,
        allocated: true,
        count: 1,
    };
    let scrubbed = match newest(&hand.claimed, frame) {
        Some(claimed) => claimed.scrubbed == 512,
        None => false,
    };
    left == given && scrubbed && hand.raises(frame) == 0
}

/// The bit of a frame that is ending or claimed is set, or that of a claimed one cleared.
pub fn hints(hand: &Hand, word: u64, act: Act) -> bool {
    let Act::Add { by } = act else {
        return false;
    };
    let mut may_hint = false;
    for frame in 0..FRAMES {
        let bit = with_bit(0, frame);
        let raised = 0 < hand.raises(frame);
        let sets = by == bit && 0 < hand.alone(frame) && !raised;
        let clears = by == bit.wrapping_neg() && 0 < times(&hand.claimed, frame) && raised;
        may_hint = may_hint || sets || clears;
    }
    word == 0 && may_hint
}
