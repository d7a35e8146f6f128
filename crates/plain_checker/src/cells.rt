//! Steps on the cells of a frame.
use plain_words::{Finding, Hand, Lock, Place, Work, demand_at, is_work, newest, times};
use xp_board::Act;
use xp_words::{Demand, KindWord, PageType, fix};

/// What the frame is in the hand decides: locked, claimed, in work, or ordinary memory.
pub fn allows(hand: &Hand, frame: u64, index: u64, act: Act) -> bool {
    let lock = newest(&hand.locks, frame);
    match (act, lock) {
        (Act::Cas { expected, new }, Some(lock)) => {
            let seen = matches!(lock.seen, Some(s) if s.index == index && s.word == expected);
            seen && replaces(hand, frame, index, new, &lock)
        }
        (Act::Store { new }, Some(lock)) => replaces(hand, frame, index, new, &lock),
        (Act::Store { new }, None) => writes(hand, frame, index, new),
        _ => false,
    }
}

/// The entry of a locked table asks the same as the one last seen there, or what it asks is in hand.
fn replaces(hand: &Hand, frame: u64, index: u64, new: u64, lock: &Lock) -> bool {
    let asked = demand_at(lock.kind, index, new);
    let same = match lock.seen {
        Some(seen) => seen.index == index && demand_at(lock.kind, index, seen.word) == asked,
        None => false,
    };
    asked != Demand::Bad && (same || has_demand(hand, frame, lock.kind, asked))
}

/// What the demand of an entry of the table asks is in hand.
pub fn has_demand(hand: &Hand, table: u64, kind: PageType, demand: Demand) -> bool {
    match demand {
        Demand::Nothing => true,
        Demand::Bad => false,
        Demand::Read { frame } => hand.spares(frame) && owners_meet(hand, table, frame, kind),
        Demand::Typed { frame, kind: below } => {
            has_typed(hand, table, frame, kind) && hand.knows_live(frame, below)
        }
    }
}

/// The same of the last entry of a table in work: what it types may be partial.
pub fn has_last_demand(hand: &Hand, table: u64, kind: PageType, demand: Demand) -> bool {
    match demand {
        Demand::Typed { frame, kind: below } => {
            let known = hand.knows_live(frame, below) || hand.knows_partial(frame, below);
            has_typed(hand, table, frame, kind) && known
        }
        _ => has_demand(hand, table, kind, demand),
    }
}

fn has_typed(hand: &Hand, table: u64, frame: u64, kind: PageType) -> bool {
    0 < hand.typed_plain(frame) && owners_meet(hand, table, frame, kind)
}

/// One owner; or at level 1 one over whose frames the table's owner was found in this turn to have privilege.
fn owners_meet(hand: &Hand, table: u64, frame: u64, kind: PageType) -> bool {
    let mut meet = false;
    for owner in 0..2_u16 {
        for other in 0..2_u16 {
            let place = Place::Priv { domain: owner };
            let reached = owner == other
                || (kind == PageType::L1
                    && hand.found_since(hand.turn, place, Finding::HasNow { domain: other }));
            if reached && hand.knows_owner(table, owner) && hand.knows_owner(frame, other) {
                meet = true;
            }
        }
    }
    meet
}

/// A frame that is not under a lock.
fn writes(hand: &Hand, frame: u64, index: u64, new: u64) -> bool {
    if 0 < times(&hand.claimed, frame) {
        return new == 0;
    }
    match newest(&hand.works, frame) {
        Some(work) => mends(index, new, &work),
        None => {
            let fixed = hand.knows_live(frame, PageType::Desc) && fix(new) == Some(new);
            let plain = hand.knows_live(frame, PageType::Writable);
            0 < hand.typed_plain(frame) && (fixed || plain)
        }
    }
}

/// The word last seen in a descriptor page of the own work takes its fixed form.
fn mends(index: u64, new: u64, work: &Work) -> bool {
    let open = match KindWord::read(work.word) {
        Some(k) => is_work(&k) && k.kind == PageType::Desc && !k.unflushed,
        None => false,
    };
    match work.seen {
        Some(seen) => open && seen.index == index && fix(seen.word) == Some(new),
        None => false,
    }
}
