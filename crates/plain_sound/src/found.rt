//! What each vCPU found stays true.
use crate::fresh::comes_to;
use crate::sound::Part;
use plain_words::{Claimed, Finding, Hand, Held, Lock, Place, State, Work, is_marked};
use xp_words::{KindWord, PageType, RefWord, fix};

const TYPES: [PageType; 7] = [
    PageType::None,
    PageType::L1,
    PageType::L2,
    PageType::L3,
    PageType::L4,
    PageType::Desc,
    PageType::Writable,
];

/// Whether that part of what each vCPU found holds.
pub fn stays(state: &State, part: Part) -> bool {
    let mut stays = true;
    for own in 0..2_u16 {
        if let Some(hand) = state.hands.get(usize::from(own)) {
            stays = stays && stays_for(state, hand, own, part);
        }
    }
    stays
}

fn stays_for(state: &State, hand: &Hand, own: u16, part: Part) -> bool {
    match part {
        Part::FoundSinceAck => clock_since_ack(state, hand, own),
        Part::FoundOwners => owners_found(state, hand),
        Part::FoundLives => lives_found(state, hand),
        Part::FoundPartials => partials_found(state, hand),
        Part::FoundWorks => works_found(state, hand),
        Part::FoundLocks => locks_found(state, hand),
        Part::FoundEndings => endings_found(state, hand),
        Part::FoundClaims => claims_found(state, hand, own),
        Part::FoundOwn => own_found(state, hand, own),
        _ => of_each(state, hand, part),
    }
}

/// What is found of the clock, each vCPU and each domain.
fn of_each(state: &State, hand: &Hand, part: Part) -> bool {
    let mut each = true;
    for number in 0..2_u16 {
        each = each
            && match part {
                Part::FoundClock => hand.told_before(u64::MAX) <= state.clock,
                Part::FoundFlushed => flushed_found(state, hand, number),
                Part::FoundStopped => stopped_found(state, hand, number),
                Part::FoundLife => life_found(state, hand, number),
                Part::FoundOff => flushed_since_off(state, hand, number),
                Part::FoundCold => cold_since_off(state, hand, number),
                _ => privileges_found(state, hand, number),
            };
    }
    each
}

/// A flush only grows.
fn flushed_found(state: &State, hand: &Hand, vcpu: u16) -> bool {
    let place = Place::Vcpu { vcpu, word: 5 };
    let most = Finding::AtMost {
        word: state.word(place),
    };
    hand.each_since(0, place, most)
}

/// A vCPU that was found stopped is.
fn stopped_found(state: &State, hand: &Hand, vcpu: u16) -> bool {
    let place = Place::Vcpu { vcpu, word: 6 };
    state.word(place) == 1 || hand.each_since(0, place, Finding::Other { word: 1 })
}

/// A domain that was found dying is dying by the same vCPU, or dead.
fn life_found(state: &State, hand: &Hand, domain: u16) -> bool {
    let place = Place::Life { domain };
    let life = state.word(place);
    life == 255 || hand.each_since(0, place, Finding::NoneOr { word: life })
}

fn clock_since_ack(state: &State, hand: &Hand, vcpu: u16) -> bool {
    let flushed = state.word(Place::Vcpu { vcpu, word: 5 });
    hand.each_since(hand.acked, Place::Clock, Finding::AtLeast { word: flushed })
}

/// The number of the step that last found the vCPU off.
fn last_off(hand: &Hand, vcpu: u16) -> Option<u64> {
    let place = Place::Vcpu { vcpu, word: 6 };
    hand.last_with(place, Finding::Equal { word: 2 })
}

/// A vCPU that was found off is off, stopped or cold, or flushed later than all that was told before.
fn flushed_since_off(state: &State, hand: &Hand, vcpu: u16) -> bool {
    let idle = state.word(Place::Vcpu { vcpu, word: 6 }) != 0;
    let cold = matches!(state.hands.get(usize::from(vcpu)), Some(other) if other.cold);
    match last_off(hand, vcpu) {
        Some(before) if 0 < before => {
            let flushed = state.word(Place::Vcpu { vcpu, word: 5 });
            idle || cold || hand.told_before(before) < flushed
        }
        _ => true,
    }
}

/// Where it is cold, what it found of the clock since its last Run step is not earlier either.
fn cold_since_off(state: &State, hand: &Hand, vcpu: u16) -> bool {
    let runs = state.word(Place::Vcpu { vcpu, word: 6 }) == 0;
    match (last_off(hand, vcpu), state.hands.get(usize::from(vcpu))) {
        (Some(before), Some(other)) if other.cold && runs => {
            let told = Finding::AtLeast {
                word: hand.told_before(before),
            };
            other.each_since(other.ran, Place::Clock, told)
        }
        _ => true,
    }
}

fn owners_found(state: &State, hand: &Hand) -> bool {
    let mut found = true;
    for frame in 0..8_u64 {
        for domain in 0..4_u16 {
            let so = state.owner_at(frame) == Some(domain);
            found = found && (so || !hand.knows_owner(frame, domain));
        }
    }
    found
}

fn lives_found(state: &State, hand: &Hand) -> bool {
    let mut found = true;
    for frame in 0..8_u64 {
        for kind in TYPES {
            let so = matches!(state.kind_of(frame), Some(k) if k.validated && k.kind == kind);
            found = found && (so || !hand.knows_live(frame, kind));
        }
    }
    found
}

/// What was last found partial has the type still.
fn partials_found(state: &State, hand: &Hand) -> bool {
    let mut found = true;
    for frame in 0..8_u64 {
        for kind in TYPES {
            let so = matches!(state.kind_of(frame), Some(k) if k.kind == kind);
            found = found && (so || !hand.knows_partial(frame, kind));
        }
    }
    found
}

/// Each cell of the frame that was found from that step on has the word still; a walk may have set the accessed
/// and dirty bits of a table's.
fn cells_found(state: &State, hand: &Hand, since: u64, frame: u64, table: bool) -> bool {
    let mut found = true;
    for made in hand.steps.iter().flatten() {
        if let Place::Cell { frame: of, index } = made.place {
            if let (true, Some(word)) = (of == frame, hand.last_since(since, made.place)) {
                let changed = word ^ state.cell(frame, index);
                found = found && (changed == 0 || (table && changed & !0x60 == 0));
            }
        }
    }
    found
}

fn works_found(state: &State, hand: &Hand) -> bool {
    let mut found = true;
    for held in hand.works.iter().flatten() {
        let frame = held.frame;
        let word = state.word(Place::Kind { frame }) == held.is.word;
        found = found && word && work_cells_found(state, hand, held);
        found = found && (!is_marked(held.is.word) || passed_can_read(state, hand, held));
    }
    found
}

/// The cells of an unmarked table or descriptor page, and the words found fixed.
fn work_cells_found(state: &State, hand: &Hand, held: &Held<Work>) -> bool {
    let Some(kind) = KindWord::read(held.is.word) else {
        return true;
    };
    let known = !kind.unflushed && kind.kind != PageType::Writable;
    let table = kind.kind.is_table();
    let mut found = !known || cells_found(state, hand, held.is.unmarked, held.frame, table);
    for cell in state.cells.iter().flatten() {
        let inside = cell.frame == held.frame && cell.index < held.is.fixed;
        found = found && (!inside || fix(cell.word) == Some(cell.word));
    }
    found
}

/// A vCPU of another domain, that was found without privilege over the owner, can but read the frame.
fn passed_can_read(state: &State, hand: &Hand, held: &Held<Work>) -> bool {
    let Some(owner) = state.owner_at(held.frame) else {
        return true;
    };
    let mut reads = true;
    for vcpu in 0..2_u16 {
        if let Some(domain) = state.domain_of(vcpu) {
            let never = Finding::NeverHad { domain: owner };
            let passed = domain != owner
                && hand.found_since(held.is.since, Place::Priv { domain }, never);
            reads = reads && (!passed || !comes_to(state, vcpu, held.frame).is_more_than_read());
        }
    }
    reads
}

fn lock_found(state: &State, hand: &Hand, held: &Held<Lock>) -> bool {
    cells_found(state, hand, held.is.since, held.frame, true)
}

fn locks_found(state: &State, hand: &Hand) -> bool {
    let mut found = true;
    for held in hand.locks.iter().flatten() {
        found = found && lock_found(state, hand, held);
    }
    found
}

fn endings_found(state: &State, hand: &Hand) -> bool {
    let mut found = true;
    for held in hand.ending.iter().flatten() {
        let owner = held.is.owner;
        found = found && state.refs_of(held.frame) == Some(RefWord::Dying { owner });
    }
    found
}

fn claims_found(state: &State, hand: &Hand, own: u16) -> bool {
    let mut found = true;
    for held in hand.claimed.iter().flatten() {
        found = found && claim_found(state, hand, own, held);
    }
    found
}

/// The frame is dying for the own domain, its cells are as found, and the first ones scrubbed.
fn claim_found(state: &State, hand: &Hand, own: u16, held: &Held<Claimed>) -> bool {
    let own = match (state.refs_of(held.frame), state.domain_of(own)) {
        (Some(RefWord::Dying { owner }), Some(domain)) => owner == domain,
        _ => false,
    };
    let mut found = own
        && held.is.stamp <= state.clock
        && cells_found(state, hand, held.is.since, held.frame, false);
    for cell in state.cells.iter().flatten() {
        let inside = cell.frame == held.frame && cell.index < held.is.scrubbed;
        found = found && (!inside || cell.word == 0);
    }
    found
}

/// Each privilege that was found was once given.
fn privileges_found(state: &State, hand: &Hand, domain: u16) -> bool {
    let place = Place::Priv { domain };
    let given = Finding::GivenIn {
        word: state.word(place),
    };
    hand.each_since(0, place, given)
}

/// The own run word; and the other own words while the vCPU is not stopped, but for those of flushes.
fn own_found(state: &State, hand: &Hand, own: u16) -> bool {
    let run = state.word(Place::Vcpu { vcpu: own, word: 6 });
    let mut found = hand.run.unwrap_or(run) == run;
    for word in 0..38_u64 {
        let place = Place::Vcpu { vcpu: own, word };
        let is = state.word(place);
        let told = hand.last_since(0, place).unwrap_or(is);
        found = found && (word == 4 || word == 5 || run == 1 || told == is);
    }
    found
}
