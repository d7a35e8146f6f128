//! Whether domains live and vCPUs run, and privileges.
use plain_words::{
    FRAMES, Finding, Hand, Place, State, names_frames, stopped_by, with_bit, without_bit,
};
use xp_board::Act;

/// A live domain is destroyed from now on, or this vCPU has found all of it empty.
pub fn allows(state: &State, hand: &Hand, own: u16, domain: u16, act: Act) -> bool {
    match act {
        Act::Cas { expected, new } => expected == 0 && new == u64::from(own) + 1,
        Act::Store { new } => new == 255 && has_cleared_all(state, hand, own, domain),
        _ => false,
    }
}

/// The number of steps after which each vCPU of the domain was found stopped, and after that each of its words that
/// may name a frame 0.
fn emptied_by(state: &State, hand: &Hand, own: u16, domain: u16) -> Option<u64> {
    let stopped = stopped_by(state, hand, own, domain)?;
    let mut by = stopped;
    for vcpu in 0..2_u16 {
        for word in 0..38_u64 {
            if names_frames(word) && state.domain_of(vcpu) == Some(domain) {
                let place = Place::Vcpu { vcpu, word };
                let found = hand.first_since(stopped, place, Finding::Equal { word: 0 })?;
                by = by.max(found);
            }
        }
    }
    Some(by)
}

/// After that each frame was found another's, or without its three marks.
fn has_cleared_all(state: &State, hand: &Hand, own: u16, domain: u16) -> bool {
    let Some(since) = emptied_by(state, hand, own, domain) else {
        return false;
    };
    let mut all = true;
    for frame in 0..FRAMES {
        let refs = Place::Refs { frame };
        let kind = Place::Kind { frame };
        let other = hand.found_since(since, refs, Finding::NotOwnedBy { domain });
        let cleared = hand.found_since(since, refs, Finding::Unallocated)
            && hand.found_since(since, kind, Finding::Unpinned)
            && hand.found_since(since, kind, Finding::Unkept);
        all = all && (other || cleared);
    }
    all
}

/// The own vCPU stops or leaves its processor with nothing in hand, or comes to one.
pub fn runs(hand: &Hand, act: Act) -> bool {
    let landed = hand.walk.is_none();
    match act {
        Act::Store { new: 0 } => landed && hand.run == Some(2),
        Act::Store { new: 1 } => landed && hand.is_empty(),
        Act::Store { new: 2 } => landed && hand.is_empty() && hand.run == Some(0),
        _ => false,
    }
}

/// Privilege over a domain over which the own domain was found to have it is given or taken away.
pub fn sets_privilege(hand: &Hand, own: u16, act: Act) -> bool {
    let Act::Cas { expected, new } = act else {
        return false;
    };
    let mut may_set = false;
    for over in 0..2_u16 {
        let bit = u64::from(over);
        let given = with_bit(with_bit(expected, bit), bit + 16);
        let taken = without_bit(expected, bit);
        let place = Place::Priv { domain: own };
        let has = hand.found_since(0, place, Finding::HasNow { domain: over });
        may_set = may_set || (has && (new == given || new == taken));
    }
    may_set
}
