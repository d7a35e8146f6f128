//! Dead domains, and dying ones.
use plain_words::{FRAMES, Finding, Hand, Place, State, names_frames, stopped_by};

/// The vCPUs still look at the frame for the domain.
fn is_looked_at(state: &State, domain: u16, frame: u64) -> bool {
    let word = state.word(Place::Kind { frame });
    let mut looked = false;
    for hand in &state.hands {
        for held in hand.looking.iter().flatten() {
            let named = held.frame == frame && held.is.owner == domain;
            looked = looked || (named && held.is.word == word);
        }
    }
    looked
}

/// The frame has the mark of that finding no more; a `kept` mark may be one that a vCPU still looks at.
fn lacks(state: &State, domain: u16, frame: u64, mark: Finding) -> bool {
    let place = place_of(mark, frame);
    mark.holds(state.word(place))
        || (matches!(mark, Finding::Unkept) && is_looked_at(state, domain, frame))
}

fn place_of(mark: Finding, frame: u64) -> Place {
    if matches!(mark, Finding::Unallocated) {
        Place::Refs { frame }
    } else {
        Place::Kind { frame }
    }
}

const MARKS: [Finding; 3] = [Finding::Unallocated, Finding::Unpinned, Finding::Unkept];

/// The frames of a dead domain have no marks, and its vCPUs are stopped and empty.
pub fn dead_rest(state: &State) -> bool {
    let mut rest = true;
    for domain in 0..2_u16 {
        if state.word(Place::Life { domain }) == 255 {
            rest = rest && frames_rest(state, domain) && vcpus_rest(state, domain);
        }
    }
    rest
}

fn frames_rest(state: &State, domain: u16) -> bool {
    let mut rest = true;
    for frame in 0..FRAMES {
        if state.owner_at(frame) == Some(domain) {
            for mark in MARKS {
                rest = rest && lacks(state, domain, frame, mark);
            }
        }
    }
    rest
}

fn vcpus_rest(state: &State, domain: u16) -> bool {
    let mut rest = true;
    for vcpu in 0..2_u16 {
        if state.domain_of(vcpu) == Some(domain) {
            rest = rest && state.word(Place::Vcpu { vcpu, word: 6 }) == 1;
            for word in 0..38_u64 {
                let named = state.word(Place::Vcpu { vcpu, word });
                rest = rest && (!names_frames(word) || named == 0);
            }
        }
    }
    rest
}

/// What the vCPU that destroys a domain found of it stays so.
pub fn dying_rest(state: &State) -> bool {
    let mut rest = true;
    for domain in 0..2_u16 {
        for own in 0..2_u16 {
            let dying = state.word(Place::Life { domain }) == u64::from(own) + 1;
            if let (true, Some(hand)) = (dying, state.hands.get(usize::from(own))) {
                rest = rest
                    && words_stay_empty(state, hand, own, domain)
                    && frames_stay(state, hand, own, domain);
            }
        }
    }
    rest
}

/// Words of a vCPU that was found stopped, found 0 after that, are 0.
fn words_stay_empty(state: &State, hand: &Hand, own: u16, domain: u16) -> bool {
    let dying = Finding::Equal {
        word: u64::from(own) + 1,
    };
    let Some(stored) = hand.first_since(0, Place::Life { domain }, dying) else {
        return true;
    };
    let mut stay = true;
    for vcpu in 0..2_u16 {
        let run = Place::Vcpu { vcpu, word: 6 };
        let stopped = hand.first_since(stored, run, Finding::Equal { word: 1 });
        if let (Some(since), true) = (stopped, state.domain_of(vcpu) == Some(domain)) {
            for word in 0..38_u64 {
                let place = Place::Vcpu { vcpu, word };
                let found = hand.found_since(since, place, Finding::Equal { word: 0 });
                stay = stay && (!names_frames(word) || !found || state.word(place) == 0);
            }
        }
    }
    stay
}

/// After all vCPUs were found stopped: marks of the domain's frames that were found absent are, and frames that
/// were found another's are.
fn frames_stay(state: &State, hand: &Hand, own: u16, domain: u16) -> bool {
    let Some(since) = stopped_by(state, hand, own, domain) else {
        return true;
    };
    let mut stay = true;
    for frame in 0..FRAMES {
        let refs = Place::Refs { frame };
        let owned = state.owner_at(frame) == Some(domain);
        let other = hand.found_since(since, refs, Finding::NotOwnedBy { domain });
        stay = stay && !(other && owned);
        for mark in MARKS {
            let found = hand.found_since(since, place_of(mark, frame), mark);
            stay = stay && (!owned || !found || lacks(state, domain, frame, mark));
        }
    }
    stay
}
