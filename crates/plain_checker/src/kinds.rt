//! Steps on a frame's type, its form and its marks.
use plain_words::{
    Finding, Hand, Owner, Place, State, Work, is_dead, is_past, is_work, newest, times,
};
use xp_board::Act;
use xp_words::{KindWord, PageType};

/// Exchanges from each form, counts that are given back, and stores by the vCPU that works on the frame.
pub fn allows(state: &State, hand: &Hand, domain: u16, frame: u64, act: Act) -> bool {
    match act {
        Act::Cas { expected, new } => match (KindWord::read(expected), KindWord::read(new)) {
            (Some(old), Some(left)) => exchanges(state, hand, domain, frame, &old, &left),
            _ => false,
        },
        Act::Add { by } => adds(hand, frame, by),
        Act::Store { new } => {
            let Some(work) = newest(&hand.works, frame) else {
                return false;
            };
            match (KindWord::read(work.word), KindWord::read(new)) {
                (Some(old), Some(left)) => stores(state, hand, frame, &work, &old, &left),
                _ => false,
            }
        }
        _ => false,
    }
}

fn exchanges(
    state: &State,
    hand: &Hand,
    domain: u16,
    frame: u64,
    old: &KindWord,
    left: &KindWord,
) -> bool {
    if old.validated {
        counts(state, hand, frame, old, left)
            || locks(state, hand, frame, old, left)
            || pins(hand, domain, frame, old, left)
    } else if old.partial {
        resumes(old, left)
    } else {
        is_dead(old) && begins(old, left) && 0 < hand.untyped(frame)
    }
}

/// A typed reference more, from a count that is not 0.
fn counts(state: &State, hand: &Hand, frame: u64, old: &KindWord, left: &KindWord) -> bool {
    let one_up = KindWord {
        number: old.number.saturating_add(1),
        ..*old
    };
    let inside = 0 < old.number && old.number < u64::from(state.limit);
    inside && *left == one_up && 0 < hand.untyped(frame)
}

fn locks(state: &State, hand: &Hand, frame: u64, old: &KindWord, left: &KindWord) -> bool {
    let locked = KindWord {
        locked: true,
        number: old.number.saturating_add(1),
        ..*old
    };
    let inside = 0 < old.number && old.number < u64::from(state.limit);
    let open = old.kind.is_table() && !old.locked;
    inside && open && *left == locked && 0 < hand.untyped(frame)
}

/// The pinned mark is set by a typed reference to a table of the own domain, and cleared by anyone.
fn pins(hand: &Hand, domain: u16, frame: u64, old: &KindWord, left: &KindWord) -> bool {
    let other = KindWord {
        pinned: !old.pinned,
        ..*old
    };
    let may_pin = old.kind.is_table()
        && 0 < old.number
        && 0 < hand.typed_plain(frame)
        && hand.knows_owner(frame, domain);
    *left == other && (old.pinned || may_pin)
}

/// From partial to work, or without its `kept` mark.
fn resumes(old: &KindWord, left: &KindWord) -> bool {
    let work = KindWord {
        partial: false,
        locked: true,
        kept: false,
        progress: 0,
        ..*old
    };
    let taken = KindWord {
        kept: false,
        ..*old
    };
    *left == work || (old.kept && *left == taken)
}

/// From dead to work: marked with the old stamp where a type is changed or was marked.
fn begins(old: &KindWord, left: &KindWord) -> bool {
    let changes = !old.kind.is_none() && old.kind != left.kind;
    let waits = old.unflushed || changes;
    let work = KindWord {
        kind: left.kind,
        pinned: false,
        validated: false,
        partial: false,
        locked: true,
        kept: false,
        unflushed: waits,
        progress: 0,
        number: if waits { old.number } else { 0 },
    };
    !left.kind.is_none() && *left == work
}

/// One count less, of a frame known live by a typed reference; or the lock and its count.
fn adds(hand: &Hand, frame: u64, by: u64) -> bool {
    let mut live = false;
    for kind in [
        PageType::L1,
        PageType::L2,
        PageType::L3,
        PageType::L4,
        PageType::Desc,
        PageType::Writable,
    ] {
        live = live || hand.knows_live(frame, kind);
    }
    let drops = by == u64::MAX && 0 < hand.typed_plain(frame) && live;
    let unlocks = by == (1_u64 << 48).wrapping_neg() - 1 && 0 < times(&hand.locks, frame);
    drops || unlocks
}

fn stores(
    state: &State,
    hand: &Hand,
    frame: u64,
    work: &Work,
    old: &KindWord,
    left: &KindWord,
) -> bool {
    let past = is_past_flush(state, hand, frame, work, old);
    if left.kind != old.kind {
        false
    } else if left.validated {
        makes_live(hand, frame, work, old, left) && (!old.unflushed || past)
    } else if left.partial {
        makes_partial(hand, frame, work, old, left)
            && (keeps_mark(old, left) || (takes_mark(old, left) && past))
    } else if left.locked {
        let bare = KindWord {
            unflushed: false,
            number: 0,
            ..*old
        };
        is_work(old) && old.unflushed && *left == bare && past
    } else {
        let mark = left.unflushed == old.unflushed || (!left.unflushed && past);
        makes_dead(hand, frame, work, old, left) && mark
    }
}

fn keeps_mark(old: &KindWord, left: &KindWord) -> bool {
    left.unflushed == old.unflushed && (!left.unflushed || left.number == old.number)
}

fn takes_mark(old: &KindWord, left: &KindWord) -> bool {
    old.unflushed && !left.unflushed
}

/// The whole frame is validated, and the type count that it comes with is in hand.
fn makes_live(hand: &Hand, frame: u64, work: &Work, old: &KindWord, left: &KindWord) -> bool {
    let whole = if left.kind.is_table() {
        work.recorded == 512 && hand.is_settled(work)
    } else {
        left.kind != PageType::Desc || work.fixed == 512
    };
    let typed = hand.typed_plain(frame);
    let counted = (left.number == 1 && 0 < typed)
        || (left.number == 2 && typed == 0 && 0 < hand.untyped(frame));
    is_work(old) && !left.pinned && !left.locked && whole && counted
}

/// The progress is what is recorded. `kept` takes the type count, of a frame whose owner the reference tells.
fn makes_partial(hand: &Hand, frame: u64, work: &Work, old: &KindWord, left: &KindWord) -> bool {
    let closing = old.validated;
    let owner = if closing {
        newest(&hand.refs, frame)
    } else {
        newest(&hand.typed, frame).map(|live| live.owner)
    };
    let may_keep = !left.kept || matches!(owner, Some(Owner::Of { .. }));
    u64::from(left.progress) == work.recorded && may_keep && (!closing || 0 < hand.untyped(frame))
}

/// Nothing is recorded, and the stamp is a clock value found since the frame came here.
fn makes_dead(hand: &Hand, frame: u64, work: &Work, old: &KindWord, left: &KindWord) -> bool {
    let stamped = hand.found_since(
        work.since,
        Place::Clock,
        Finding::Equal { word: left.number },
    );
    let counted = !is_work(old) || 0 < hand.typed_plain(frame);
    work.recorded == 0 && stamped && counted
}

/// No vCPU can have an older translation to the marked frame, but to read it.
fn is_past_flush(state: &State, hand: &Hand, frame: u64, work: &Work, old: &KindWord) -> bool {
    let mut all = true;
    for vcpu in 0..2_u16 {
        let past = is_past(hand, work.since, old.number, vcpu);
        let over = match state.domain_of(vcpu) {
            Some(domain) => passes_over(hand, frame, work, domain),
            None => false,
        };
        all = all && (past || over);
    }
    all
}

/// The domain was found never to have had privilege over the frame's owner, which is another.
fn passes_over(hand: &Hand, frame: u64, work: &Work, domain: u16) -> bool {
    let mut over = false;
    for owner in 0..2_u16 {
        let place = Place::Priv { domain };
        let never = hand.found_since(work.since, place, Finding::NeverHad { domain: owner });
        over = over || (owner != domain && never && hand.knows_owner(frame, owner));
    }
    over
}
