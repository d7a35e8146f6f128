//! Entries of locked tables, words of vCPUs that name frames, and credits.
use crate::marks::{demand_in, demand_out};
use plain_words::{
    Hand, Live, Lock, Owner, demand_at, names_frames, newest, push, put, remove, take,
};
use xp_board::Act;
use xp_words::PageType;

/// What a new entry of a table under the own lock asks goes out of the hand, and what the old one asked comes in.
pub fn moves(hand: &mut Hand, table: u64, index: u64, act: Act, found: u64) {
    let new = match act {
        Act::Store { new } => new,
        Act::Cas { expected, new } if expected == found => new,
        _ => return,
    };
    if let Some(lock) = newest(&hand.locks, table) {
        if !asks_as_seen(&lock, index, new) {
            demand_out(hand, demand_at(lock.kind, index, new));
            demand_in(hand, demand_at(lock.kind, index, found), true);
        }
    }
}

/// Whether the new entry asks the same as the one last seen there.
fn asks_as_seen(lock: &Lock, index: u64, new: u64) -> bool {
    match lock.seen {
        Some(seen) => {
            seen.index == index
                && demand_at(lock.kind, index, seen.word) == demand_at(lock.kind, index, new)
        }
        None => false,
    }
}

/// Pages that are counted give credits, and those that are given back take them.
pub fn moves_credits(hand: &mut Hand, domain: u16, act: Act, found: u64) {
    match act {
        Act::Cas { expected, new } if expected == found => {
            for _ in found..new {
                push(&mut hand.credits, domain);
            }
        }
        Act::Add { by } => {
            let fewer = by.wrapping_neg().min(hand.credits_of(domain));
            for _ in 0..fewer {
                remove(&mut hand.credits, domain);
            }
        }
        _ => {}
    }
}

/// The type of the frame that a word of a vCPU names: an old word tells none.
fn type_named(number: u64) -> Option<PageType> {
    match number {
        0 | 1 => Some(PageType::L4),
        2 | 3 => None,
        _ => Some(PageType::Desc),
    }
}

/// What the new word names goes out of the hand, and what the old one named comes in.
pub fn moves_named(hand: &mut Hand, number: u64, act: Act, found: u64) {
    let Act::Store { new } = act else {
        return;
    };
    if !names_frames(number) {
        return;
    }
    if 0 < new {
        take(&mut hand.typed, new - 1);
    }
    if 0 < found {
        let since = hand.time();
        let live = Live {
            kind: type_named(number),
            owner: Owner::Since { steps: since },
            found: type_named(number).is_some(),
            since: if type_named(number).is_some() {
                0
            } else {
                since
            },
        };
        put(&mut hand.typed, found - 1, live);
    }
}
