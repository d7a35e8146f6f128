//! Each hand fits itself: what is noted is what was last found or left, and times are past.
use plain_words::{
    Hand, Held, Lock, Looking, Place, Reached, Seen, State, Touching, Unsettled, Walk, Work,
    bit_of, is_marked, is_place, is_walked,
};
use xp_words::KindWord;

/// Whether the hands fit themselves.
pub fn is_formed(state: &State) -> bool {
    let mut formed = true;
    for own in 0..2_u16 {
        if let (Some(hand), Some(domain)) = (
            state.hands.get(usize::from(own)),
            state.domain_of(own),
        ) {
            formed = formed
                && works_formed(hand)
                && locks_formed(hand)
                && times_formed(hand)
                && raised_formed(hand)
                && looking_formed(hand, domain)
                && cache_formed(hand)
                && own_formed(hand, own);
        }
    }
    formed
}

/// What is noted of a cell is the word last found or left there.
fn seen_is(hand: &Hand, since: u64, frame: u64, seen: Option<Seen>) -> bool {
    match seen {
        Some(seen) => {
            let place = Place::Cell {
                frame,
                index: seen.index,
            };
            hand.last_since(since, place) == Some(seen.word)
        }
        None => true,
    }
}

/// The last recorded entry is noted as it was last found or left.
fn unsettled_formed(hand: &Hand, held: &Held<Work>, open: Unsettled) -> bool {
    let last = Place::Cell {
        frame: held.frame,
        index: held.is.recorded.saturating_sub(1),
    };
    let noted = open.word.is_none() || hand.last_since(held.is.unmarked, last) == open.word;
    noted && 0 < held.is.recorded && open.since <= hand.time()
}

fn work_formed(hand: &Hand, held: &Held<Work>) -> bool {
    let work = held.is;
    let table = matches!(KindWord::read(work.word), Some(k) if k.kind.is_table());
    let most = if table { 512 } else { 0 };
    let kind = Place::Kind { frame: held.frame };
    let equal = plain_words::Finding::Equal { word: work.word };
    let told = work.seen.is_none() && hand.found_between(0, work.since, kind, equal);
    let settled = match work.unsettled {
        Some(open) => unsettled_formed(hand, held, open),
        None => true,
    };
    work.recorded <= most
        && (!is_marked(work.word) || told)
        && seen_is(hand, work.unmarked, held.frame, work.seen)
        && settled
        && work.since <= work.unmarked
        && work.unmarked <= hand.time()
}

fn works_formed(hand: &Hand) -> bool {
    let mut formed = true;
    for held in hand.works.iter().flatten() {
        formed = formed && work_formed(hand, held);
    }
    formed
}

fn lock_formed(hand: &Hand, held: &Held<Lock>) -> bool {
    held.is.kind.is_table()
        && seen_is(hand, held.is.since, held.frame, held.is.seen)
        && held.is.since <= hand.time()
}

fn locks_formed(hand: &Hand) -> bool {
    let mut formed = true;
    for held in hand.locks.iter().flatten() {
        formed = formed && lock_formed(hand, held);
    }
    formed
}

/// Times are past, and steps are on words of the machine.
fn times_formed(hand: &Hand) -> bool {
    let now = hand.time();
    let mut formed = hand.turn <= now && hand.acked <= now && hand.ran <= now;
    for held in hand.ending.iter().flatten() {
        formed = formed && held.is.since <= now;
    }
    for held in hand.claimed.iter().flatten() {
        formed = formed && held.is.since <= now;
    }
    for made in hand.steps.iter().flatten() {
        formed = formed && is_place(made.place);
    }
    formed
}

/// A raised frame is ending or claimed, once.
fn raised_formed(hand: &Hand) -> bool {
    let mut formed = true;
    for frame in hand.raised.iter().flatten() {
        formed = formed && hand.raises(*frame) <= hand.alone(*frame);
    }
    formed
}

fn looks_well(held: &Held<Looking>, domain: u16) -> bool {
    match KindWord::read(held.is.word) {
        Some(kind) => !kind.validated && kind.partial && kind.kept && held.is.owner != domain,
        None => false,
    }
}

/// It looks for other domains at partial frames that are kept.
fn looking_formed(hand: &Hand, domain: u16) -> bool {
    let mut formed = true;
    for held in hand.looking.iter().flatten() {
        formed = formed && looks_well(held, domain);
    }
    formed
}

/// At most 64 translations.
fn cache_formed(hand: &Hand) -> bool {
    let few = hand.cache.iter().flatten().count() <= 64;
    match hand.walk {
        Some(walk) => few && walk_formed(&walk),
        None => few,
    }
}

/// The tables of a walk go down level by level from the top.
fn walk_formed(walk: &Walk) -> bool {
    let Some(last) = walk.reached[0] else {
        return false;
    };
    let mut level = last.level;
    let mut formed = 1 <= level && level <= 4;
    for reached in walk.reached.iter().flatten() {
        formed = formed && reached.level == level;
        level = level.saturating_add(1);
    }
    let touches = match walk.touching {
        Some(touching) => touches_well(walk, last, touching),
        None => true,
    };
    formed && level == 5 && touches
}

/// The entry whose bits are still to be set is a present one of the table reached last.
fn touches_well(walk: &Walk, last: Reached, touching: Touching) -> bool {
    touching.frame == last.table
        && is_walked(last.level, touching.index)
        && bit_of(touching.word, 0)
        && (!walk.writable || bit_of(touching.word, 1))
}

/// What is noted of the own words is what was last found or left.
fn own_formed(hand: &Hand, own: u16) -> bool {
    let last = |word: u64| hand.last_since(0, Place::Vcpu { vcpu: own, word });
    hand.run == last(6) && hand.old0 == last(2) && hand.old1 == last(3)
}
