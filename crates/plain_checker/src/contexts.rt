//! Words of a vCPU that name frames, and the base of its LDT.
use plain_words::{Finding, Hand, Place, State, names_frames};
use xp_board::Act;
use xp_words::PageType;

/// Stores by the own vCPU, and of 0 by a vCPU that destroys the domain.
pub fn allows(state: &State, hand: &Hand, own: u16, vcpu: u16, word: u64, act: Act) -> bool {
    let (Act::Store { new }, Some(domain)) = (act, state.domain_of(vcpu)) else {
        return false;
    };
    let names = names_frames(word) && (new == 0 || names_well(hand, domain, word, new - 1));
    let owns = vcpu == own && (names || word == 7);
    let empties = new == 0 && (names_frames(word) || word == 7);
    owns || (empties && has_stopped(hand, own, vcpu, domain))
}

/// A typed reference is in hand; of other words than the old ones it is to a live frame of the own domain.
fn names_well(hand: &Hand, domain: u16, word: u64, frame: u64) -> bool {
    let kind = if word < 2 {
        PageType::L4
    } else {
        PageType::Desc
    };
    let old = word == 2 || word == 3;
    let fits = hand.knows_live(frame, kind) && hand.knows_owner(frame, domain);
    0 < hand.typed_plain(frame) && (old || fits)
}

/// The own vCPU destroys the domain of the other one, and found that one stopped.
fn has_stopped(hand: &Hand, own: u16, vcpu: u16, domain: u16) -> bool {
    let dying = Finding::Equal {
        word: u64::from(own) + 1,
    };
    let run = Place::Vcpu { vcpu, word: 6 };
    hand.found_since(0, Place::Life { domain }, dying)
        && hand.found_since(0, run, Finding::Equal { word: 1 })
}
