//! Single words: spellings, stamps, the map, and words of vCPUs that do not run.
use plain_words::{Hand, Place, State, bit_of, free_stamp, is_free, is_spelling, kind_stamp};

/// Each word is a spelling.
pub fn is_spelled(state: &State) -> bool {
    let mut spelled = is_spelling(state, Place::Clock, state.clock)
        && is_spelling(state, Place::Map { word: 0 }, state.map);
    for domain in 0..2_u16 {
        for place in [
            Place::Pages { domain },
            Place::Life { domain },
            Place::Priv { domain },
        ] {
            spelled = spelled && is_spelling(state, place, state.word(place));
        }
    }
    for vcpu in 0..2_u16 {
        for word in 0..38_u64 {
            let place = Place::Vcpu { vcpu, word };
            spelled = spelled && is_spelling(state, place, state.word(place));
        }
    }
    for words in &state.frames {
        spelled = spelled
            && is_spelling(state, Place::Refs { frame: 0 }, words.refs)
            && is_spelling(state, Place::Kind { frame: 0 }, words.kind);
    }
    spelled
}

/// No flush and no stamp is later than the clock.
pub fn is_stamped(state: &State) -> bool {
    let mut stamped = true;
    for words in &state.vcpus {
        stamped = stamped && words[5] <= state.clock;
    }
    for words in &state.frames {
        stamped = stamped
            && free_stamp(words.refs) <= state.clock
            && kind_stamp(words.kind) <= state.clock;
    }
    stamped
}

fn has_translations(hand: &Hand) -> bool {
    hand.cache.iter().flatten().next().is_some() || hand.walk.is_some()
}

/// A vCPU that does not run has nothing in hand, no cache and no walk; a cold one has no cache and no walk.
pub fn rests(state: &State) -> bool {
    let mut rests = true;
    for vcpu in 0..2_u16 {
        if let Some(hand) = state.hands.get(usize::from(vcpu)) {
            let idle = state.word(Place::Vcpu { vcpu, word: 6 }) != 0;
            rests = rests && (!idle || hand.is_empty());
            rests = rests && (!(idle || hand.cold) || !has_translations(hand));
        }
    }
    rests
}

/// A bit is set for each free frame and for each raised one, and for no other.
pub fn map_tells(state: &State) -> bool {
    let mut tells = true;
    let mut frame: u64 = 0;
    for words in &state.frames {
        let mut due = u64::from(is_free(words.refs));
        for hand in &state.hands {
            due = due.saturating_add(hand.raises(frame));
        }
        tells = tells && u64::from(bit_of(state.map, frame)) == due;
        frame = frame.saturating_add(1);
    }
    tells
}
