//! References, frames that end and frames that are claimed, and the map of free frames.
use plain_words::{
    Claimed, Ending, Hand, Owner, newest, owner_of, push, put, remove, take, with_bit,
};
use xp_board::Act;
use xp_words::RefWord;

/// What a step on a frame's owner and reference count moves.
pub fn moves(hand: &mut Hand, domain: u16, frame: u64, act: Act, found: u64) {
    match act {
        Act::Cas { expected, new } if expected == found => {
            exchanges(hand, domain, frame, found, RefWord::read(new));
        }
        Act::Add { .. } => lowers(hand, frame, found),
        Act::Store { new } => match RefWord::read(new) {
            Some(RefWord::Free { .. }) => frees(hand, domain, frame),
            _ => take(&mut hand.claimed, frame),
        },
        _ => {}
    }
}

/// A free frame is claimed, and its bit is still set; else a reference comes in whose owner was found.
fn exchanges(hand: &mut Hand, domain: u16, frame: u64, found: u64, left: Option<RefWord>) {
    match (RefWord::read(found), left) {
        (Some(RefWord::Free { stamp }), _) => {
            let claimed = Claimed {
                stamp,
                scrubbed: 0,
                since: hand.time().saturating_add(1),
            };
            put(&mut hand.claimed, frame, claimed);
            push(&mut hand.raised, frame);
            remove(&mut hand.credits, domain);
        }
        (Some(RefWord::Owned { owner, .. }), _) => {
            put(&mut hand.refs, frame, Owner::Of { domain: owner });
        }
        _ => {}
    }
}

/// The last reference leaves the frame ending.
fn lowers(hand: &mut Hand, frame: u64, found: u64) {
    take(&mut hand.refs, frame);
    let last = matches!(RefWord::read(found), Some(RefWord::Owned { count: 1, .. }));
    if last {
        let ending = Ending {
            owner: owner_of(found).unwrap_or(0),
            since: hand.time().saturating_add(1),
        };
        put(&mut hand.ending, frame, ending);
    }
}

/// The page that the frame was counts without a frame.
fn frees(hand: &mut Hand, domain: u16, frame: u64) {
    let owner = match newest(&hand.ending, frame) {
        Some(ending) => ending.owner,
        None => domain,
    };
    take(&mut hand.ending, frame);
    take(&mut hand.claimed, frame);
    remove(&mut hand.raised, frame);
    push(&mut hand.credits, owner);
}

/// Whether a sum to that word of the map sets the frame's bit, or clears it.
fn is_bit_of(frame: u64, word: u64, by: u64) -> bool {
    frame / 64 == word && with_bit(0, frame % 64) == by
}

/// The bit of a raised frame is cleared, or that of an ending or claimed one set.
pub fn hints(hand: &mut Hand, word: u64, act: Act) {
    let Act::Add { by } = act else {
        return;
    };
    let mut lowered = None;
    for entry in hand.raised.iter().rev() {
        if matches!(entry, Some(frame) if is_bit_of(*frame, word, by.wrapping_neg())) {
            lowered = *entry;
        }
    }
    if let Some(frame) = lowered {
        remove(&mut hand.raised, frame);
    } else if let Some(frame) = first_to_raise(hand, word, by) {
        push(&mut hand.raised, frame);
    }
}

fn first_to_raise(hand: &Hand, word: u64, by: u64) -> Option<u64> {
    for held in hand.ending.iter().flatten() {
        if is_bit_of(held.frame, word, by) {
            return Some(held.frame);
        }
    }
    for held in hand.claimed.iter().flatten() {
        if is_bit_of(held.frame, word, by) {
            return Some(held.frame);
        }
    }
    None
}
