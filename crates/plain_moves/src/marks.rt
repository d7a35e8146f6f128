//! What a mark leaves of a hand, and how what an entry asks goes out of it and comes in.
use plain_words::{Hand, Live, Owner, Unsettled, Work, change, demand_at, newest, pack, put, take};
use xp_board::Mark;
use xp_words::{Demand, KindWord};

/// What an entry asks goes out of the hand.
pub fn demand_out(hand: &mut Hand, demand: Demand) {
    match demand {
        Demand::Read { frame } => take(&mut hand.refs, frame),
        Demand::Typed { frame, .. } => take(&mut hand.typed, frame),
        _ => {}
    }
}

/// What an entry asked comes into the hand. Its owner is not known yet; `sure` says that its frame is live.
pub fn demand_in(hand: &mut Hand, demand: Demand, sure: bool) {
    let since = hand.time();
    let owner = Owner::Since { steps: since };
    match demand {
        Demand::Read { frame } => put(&mut hand.refs, frame, owner),
        Demand::Typed { frame, kind } => {
            let live = Live {
                kind: Some(kind),
                owner,
                found: sure,
                since: if sure { 0 } else { since },
            };
            put(&mut hand.typed, frame, live);
        }
        _ => {}
    }
}

/// What that entry of a table in the own work asks, by the word that was loaded last.
fn demand_seen(work: &Work, index: u64) -> (Demand, u64) {
    let word = match work.seen {
        Some(seen) => seen.word,
        None => 0,
    };
    match KindWord::read(work.word) {
        Some(kind) => (demand_at(kind.kind, index, word), word),
        None => (Demand::Nothing, word),
    }
}

fn records(hand: &mut Hand, frame: u64) {
    let Some(work) = newest(&hand.works, frame) else {
        return;
    };
    let (demand, word) = demand_seen(&work, work.recorded);
    let open = match demand {
        Demand::Typed { frame, kind } => !hand.knows_live(frame, kind),
        _ => false,
    };
    let unsettled = Unsettled {
        since: hand.time(),
        word: Some(word),
    };
    let next = Work {
        recorded: work.recorded.saturating_add(1),
        unsettled: open.then_some(unsettled),
        ..work
    };
    change(&mut hand.works, frame, next);
    demand_out(hand, demand);
}

fn sheds(hand: &mut Hand, frame: u64, upto: u64) {
    let Some(work) = newest(&hand.works, frame) else {
        return;
    };
    let settled = hand.is_settled(&work);
    let next = Work {
        recorded: upto,
        unsettled: None,
        ..work
    };
    change(&mut hand.works, frame, next);
    let (demand, _) = demand_seen(&work, upto);
    demand_in(hand, demand, settled);
}

fn forgets(hand: &mut Hand, page: u64) {
    for slot in &mut hand.cache {
        if matches!(slot, Some(item) if item.page == page) {
            *slot = None;
        }
    }
    pack(&mut hand.cache);
}

/// The hand that a mark leaves, by which the act is judged.
pub fn marked(hand: &Hand, mark: Option<Mark>) -> Hand {
    let mut next = *hand;
    match mark {
        Some(Mark::Record { frame, .. }) => records(&mut next, u64::from(frame)),
        Some(Mark::Shed { frame, upto }) => sheds(&mut next, u64::from(frame), u64::from(upto)),
        Some(Mark::Forget { page }) => forgets(&mut next, page),
        Some(Mark::Turn) => next.turn = next.time(),
        _ => {}
    }
    next
}
