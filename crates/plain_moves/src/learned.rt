//! What any step learns of its word.
use plain_words::{Claimed, Hand, Held, Lock, Place, Seen, Unsettled, Work, change, newest, pack};
use xp_words::{KindWord, PageType, fix};

/// Learns from the word that a step found and the one that it left.
pub fn learns(hand: &mut Hand, own: u16, place: Place, found: u64, left: u64) {
    match place {
        Place::Cell { frame, index } => learns_cell(hand, frame, index, left),
        Place::Vcpu { vcpu, word } if vcpu == own => match word {
            2 => hand.old0 = Some(left),
            3 => hand.old1 = Some(left),
            6 => hand.run = Some(left),
            _ => {}
        },
        Place::Life { domain } if found == 0 => ends_looking(hand, domain),
        _ => {}
    }
}

fn learns_cell(hand: &mut Hand, frame: u64, index: u64, word: u64) {
    if let Some(work) = newest(&hand.works, frame) {
        change(&mut hand.works, frame, seen_in_work(work, index, word));
    }
    if let Some(lock) = newest(&hand.locks, frame) {
        let next = Lock {
            seen: Some(Seen { index, word }),
            ..lock
        };
        change(&mut hand.locks, frame, next);
    }
    if let Some(claimed) = newest(&hand.claimed, frame) {
        if claimed.scrubbed == index && word == 0 {
            let next = Claimed {
                scrubbed: index.saturating_add(1),
                ..claimed
            };
            change(&mut hand.claimed, frame, next);
        }
    }
}

/// A marked frame tells nothing.
fn seen_in_work(work: Work, index: u64, word: u64) -> Work {
    let kind = match KindWord::read(work.word) {
        Some(kind) if !kind.unflushed => kind,
        _ => return work,
    };
    let unsettled = match work.unsettled {
        Some(open) if index.saturating_add(1) == work.recorded => Some(Unsettled {
            word: Some(word),
            ..open
        }),
        other => other,
    };
    let next_fixed = kind.kind == PageType::Desc && index == work.fixed && fix(word) == Some(word);
    Work {
        seen: Some(Seen { index, word }),
        unsettled,
        fixed: work.fixed.saturating_add(u64::from(next_fixed)),
        ..work
    }
}

/// A domain that was found alive is not looked at any more.
fn ends_looking(hand: &mut Hand, domain: u16) {
    for slot in &mut hand.looking {
        if matches!(slot, Some(Held { is, .. }) if is.owner == domain) {
            *slot = None;
        }
    }
    pack(&mut hand.looking);
}
