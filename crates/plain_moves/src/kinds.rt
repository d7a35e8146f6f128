//! Types, forms and marks of frames.
use plain_words::{
    Hand, Live, Lock, Looking, Owner, Unsettled, Work, change, is_closing, is_work, left_by,
    newest, pack, put, take,
};
use xp_board::Act;
use xp_words::{KindWord, PageType};

/// What a step on a frame's type moves.
pub fn moves(hand: &mut Hand, domain: u16, frame: u64, act: Act, found: u64) {
    match act {
        Act::Cas { expected, new } => {
            let left = if expected == found { new } else { found };
            still_looks(hand, frame, left);
            if let (true, Some(old), Some(kind)) = (
                expected == found,
                KindWord::read(found),
                KindWord::read(new),
            ) {
                exchanges(hand, frame, &old, &kind, new);
            }
        }
        Act::Add { by } => {
            if let Some(old) = KindWord::read(found) {
                lowers(hand, frame, by, &old, left_by(act, found));
            }
        }
        Act::Store { new } => {
            if let (Some(work), Some(kind)) = (newest(&hand.works, frame), KindWord::read(new)) {
                stores(hand, domain, frame, &work, &kind, new);
            }
        }
        _ => {}
    }
}

/// An exchange that finds or leaves another word than the vCPU left there ends its looking.
fn still_looks(hand: &mut Hand, frame: u64, word: u64) {
    for slot in &mut hand.looking {
        if matches!(slot, Some(held) if held.frame == frame && held.is.word != word) {
            *slot = None;
        }
    }
    pack(&mut hand.looking);
}

/// What is known of the owner by the newest untyped reference.
fn untyped_owner(hand: &Hand, frame: u64) -> Owner {
    newest(&hand.refs, frame).unwrap_or(Owner::Since { steps: hand.time() })
}

fn typed_owner(hand: &Hand, frame: u64) -> Owner {
    match newest(&hand.typed, frame) {
        Some(live) => live.owner,
        None => Owner::Since { steps: hand.time() },
    }
}

fn lock_owner(hand: &Hand, frame: u64) -> Owner {
    match newest(&hand.locks, frame) {
        Some(lock) => lock.owner,
        None => Owner::Since { steps: hand.time() },
    }
}

/// A typed reference comes in; where this step does not find or make the frame live, what is found from now on
/// counts.
fn brings(hand: &mut Hand, frame: u64, kind: PageType, owner: Owner, found: bool) {
    let live = Live {
        kind: Some(kind),
        owner,
        found,
        since: if found { 0 } else { hand.time() },
    };
    put(&mut hand.typed, frame, live);
}

/// An untyped reference becomes a typed one.
fn types(hand: &mut Hand, frame: u64, kind: PageType, found: bool) {
    let owner = untyped_owner(hand, frame);
    take(&mut hand.refs, frame);
    brings(hand, frame, kind, owner, found);
}

/// A typed reference becomes an untyped one.
fn untypes(hand: &mut Hand, frame: u64) {
    let owner = typed_owner(hand, frame);
    take(&mut hand.typed, frame);
    put(&mut hand.refs, frame, owner);
}

fn comes_into_work(hand: &mut Hand, frame: u64, word: u64, recorded: u64, open: bool) {
    let since = hand.time().saturating_add(1);
    let unsettled = Unsettled { since, word: None };
    let work = Work {
        word,
        recorded,
        fixed: 0,
        seen: None,
        unsettled: open.then_some(unsettled),
        since,
        unmarked: since,
    };
    put(&mut hand.works, frame, work);
}

fn exchanges(hand: &mut Hand, frame: u64, old: &KindWord, new: &KindWord, word: u64) {
    if old.validated {
        exchanges_live(hand, frame, old, new);
    } else if old.partial {
        if new.partial {
            let owner = Owner::Since { steps: hand.time() };
            brings(hand, frame, old.kind, owner, false);
        } else {
            if old.kept {
                let owner = untyped_owner(hand, frame);
                brings(hand, frame, old.kind, owner, false);
            }
            let recorded = u64::from(old.progress);
            comes_into_work(hand, frame, word, recorded, 0 < recorded);
        }
    } else {
        types(hand, frame, new.kind, false);
        comes_into_work(hand, frame, word, 0, false);
    }
}

fn exchanges_live(hand: &mut Hand, frame: u64, old: &KindWord, new: &KindWord) {
    if new.locked && !old.locked {
        let lock = Lock {
            kind: old.kind,
            owner: untyped_owner(hand, frame),
            seen: None,
            since: hand.time().saturating_add(1),
        };
        take(&mut hand.refs, frame);
        put(&mut hand.locks, frame, lock);
    } else if new.pinned && !old.pinned {
        take(&mut hand.typed, frame);
    } else if old.pinned && !new.pinned {
        let owner = Owner::Since { steps: hand.time() };
        brings(hand, frame, old.kind, owner, true);
    } else {
        types(hand, frame, old.kind, true);
    }
}

/// A type count is given back, by a reference or with the lock. The last one leaves the frame closing here.
fn lowers(hand: &mut Hand, frame: u64, by: u64, old: &KindWord, left: u64) {
    if by == u64::MAX {
        untypes(hand, frame);
    } else {
        let owner = lock_owner(hand, frame);
        take(&mut hand.locks, frame);
        put(&mut hand.refs, frame, owner);
    }
    if old.number == 1 {
        let recorded = if old.kind.is_table() { 512 } else { 0 };
        comes_into_work(hand, frame, left, recorded, false);
    }
}

fn stores(hand: &mut Hand, domain: u16, frame: u64, work: &Work, new: &KindWord, word: u64) {
    if new.validated {
        if new.number == 1 {
            let owner = typed_owner(hand, frame);
            take(&mut hand.typed, frame);
            brings(hand, frame, new.kind, owner, true);
        } else {
            types(hand, frame, new.kind, true);
        }
        take(&mut hand.works, frame);
    } else if new.partial {
        leaves_partial(hand, domain, frame, work, new.kept, word);
    } else if new.locked {
        let next = Work {
            word,
            unmarked: hand.time().saturating_add(1),
            ..*work
        };
        change(&mut hand.works, frame, next);
    } else {
        if matches!(KindWord::read(work.word), Some(old) if is_work(&old)) {
            untypes(hand, frame);
        }
        take(&mut hand.works, frame);
    }
}

/// From closing an untyped reference becomes the type count. `kept` takes the count out of the hand, and the
/// vCPU looks at the life of another domain whose frame it is.
fn leaves_partial(hand: &mut Hand, domain: u16, frame: u64, work: &Work, kept: bool, word: u64) {
    let closing = is_closing(work.word);
    let owner = if closing {
        untyped_owner(hand, frame)
    } else {
        typed_owner(hand, frame)
    };
    if let (true, Some(old)) = (closing, KindWord::read(work.word)) {
        types(hand, frame, old.kind, false);
    }
    take(&mut hand.works, frame);
    if kept {
        take(&mut hand.typed, frame);
        if let Owner::Of { domain: other } = owner {
            if other != domain {
                put(&mut hand.looking, frame, Looking { owner: other, word });
            }
        }
    }
}
