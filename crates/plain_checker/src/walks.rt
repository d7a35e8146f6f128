//! Walks of page tables, and accesses of the guest.
use plain_moves::touched;
use plain_words::{Hand, is_walked};
use xp_board::{Act, Mark};

fn begins(mark: Option<Mark>) -> bool {
    matches!(mark, Some(Mark::Walk { .. }))
}

/// The load of the own base or user base begins a walk.
pub fn starts(hand: &Hand, word: u64, act: Act, mark: Option<Mark>) -> bool {
    act == Act::Load && begins(mark) && word < 2 && hand.walk.is_none() && !hand.cold
}

/// The load of an entry of the table that the walk reached last.
pub fn goes_on(hand: &Hand, frame: u64, index: u64, act: Act, mark: Option<Mark>) -> bool {
    let Some(walk) = hand.walk else {
        return false;
    };
    let here = match walk.reached[0] {
        Some(reached) => reached.table == frame && is_walked(reached.level, index),
        None => false,
    };
    act == Act::Load && !begins(mark) && here && walk.touching.is_none() && !hand.cold
}

/// From the entry that the walk waits for to that entry with the bits that it needs.
pub fn touches(hand: &Hand, frame: u64, index: u64, act: Act) -> bool {
    let (Act::Cas { expected, new }, Some(walk)) = (act, hand.walk) else {
        return false;
    };
    let waits = match walk.touching {
        Some(t) => t.frame == frame && t.index == index && t.word == expected,
        None => false,
    };
    waits && new == touched(&walk, expected)
}

/// A cached translation leads to the frame, a writable one for a store.
pub fn accesses(hand: &Hand, frame: u64, act: Act) -> bool {
    let mut reads = false;
    let mut writes = false;
    for item in hand.cache.iter().flatten() {
        reads = reads || item.frame == frame;
        writes = writes || (item.frame == frame && item.writable);
    }
    match act {
        Act::Load => reads && !hand.cold,
        Act::Store { .. } => writes && !hand.cold,
        _ => false,
    }
}
