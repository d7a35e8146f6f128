//! The clock, and flushes that are asked for and made.
use plain_words::{FRAMES, Finding, Hand, Place, STEPS, State, Work, is_free, newest};
use xp_board::Act;
use xp_words::KindWord;

/// One up, below the last value.
pub fn ticks(act: Act) -> bool {
    match act {
        Act::Cas { expected, new } => expected < (1 << 36) - 2 && new == expected + 1,
        _ => false,
    }
}

/// After its stamp was found, the vCPU was found running, and flushed no later.
pub fn asks(state: &State, hand: &Hand, vcpu: u16, act: Act) -> bool {
    let (Act::Max { value: stamp }, Some(domain)) = (act, state.domain_of(vcpu)) else {
        return false;
    };
    let run = Place::Vcpu { vcpu, word: 6 };
    let flushed = Place::Vcpu { vcpu, word: 5 };
    let mut may_ask = false;
    for since in 0..=STEPS {
        let runs = hand.found_since(since, run, Finding::Equal { word: 0 });
        let waits = hand.found_since(since, flushed, Finding::AtMost { word: stamp });
        may_ask = may_ask || (runs && waits && awaits(hand, domain, since, stamp));
    }
    may_ask
}

/// The stamp is that of a marked frame in the own work, of a free frame, or a clock value.
fn awaits(hand: &Hand, domain: u16, since: u64, stamp: u64) -> bool {
    let told = Finding::Equal { word: stamp };
    let mut awaits = hand.found_between(0, since, Place::Clock, told);
    for frame in 0..FRAMES {
        let free = is_free(stamp) && hand.found_between(0, since, Place::Refs { frame }, told);
        awaits = awaits || free;
        if let Some(work) = newest(&hand.works, frame) {
            let marked = is_marked_at(&work, stamp) && work.since <= since;
            awaits = awaits || (marked && concerns(hand, domain, frame));
        }
    }
    awaits
}

/// The vCPU's domain owns the frame, or was found to have had privilege over its owner.
fn concerns(hand: &Hand, domain: u16, frame: u64) -> bool {
    let mut concerned = false;
    for owner in 0..2_u16 {
        let place = Place::Priv { domain };
        let reaches = owner == domain
            || hand.found_since(0, place, Finding::HasEver { domain: owner });
        concerned = concerned || (reaches && hand.knows_owner(frame, owner));
    }
    concerned
}

fn is_marked_at(work: &Work, stamp: u64) -> bool {
    matches!(KindWord::read(work.word), Some(kind) if kind.unflushed && kind.number == stamp)
}

/// A clock value found or left since the last flush; of a cold vCPU above one found since its last Run step.
pub fn acknowledges(hand: &Hand, act: Act) -> bool {
    let Act::Store { new } = act else {
        return false;
    };
    let told = hand.found_since(hand.acked, Place::Clock, Finding::Equal { word: new });
    let below = Finding::AtMost {
        word: new.saturating_sub(1),
    };
    let warmed = 0 < new && hand.found_since(hand.ran, Place::Clock, below);
    told && (!hand.cold || warmed) && hand.walk.is_none()
}
