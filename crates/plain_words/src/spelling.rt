//! Which words may stand at a place.
use crate::machine::{FRAMES, Place, State};
use crate::readings::names_frames;
use xp_words::{KindWord, LdtBase, RefWord};

/// Whether the small machine has the word.
pub fn is_place(place: Place) -> bool {
    match place {
        Place::Clock => true,
        Place::Pages { domain } | Place::Life { domain } | Place::Priv { domain } => domain < 2,
        Place::Vcpu { vcpu, word } => vcpu < 2 && word < 38,
        Place::Refs { frame } | Place::Kind { frame } | Place::M2p { frame } => frame < FRAMES,
        Place::Cell { frame, index } => frame < FRAMES && index < 512,
        Place::Map { word } => word == 0,
    }
}

/// Whether the word may stand there.
pub fn is_spelling(state: &State, place: Place, word: u64) -> bool {
    match place {
        Place::Clock => 0 < word && word < (1 << 36) - 1,
        Place::Pages { domain } => match state.page_limit.get(usize::from(domain)) {
            Some(limit) => word <= *limit,
            None => false,
        },
        Place::Life { .. } => word <= 16 || word == 255,
        Place::Priv { .. } => word < 1 << 32 && (word & 0xffff) & !(word >> 16) == 0,
        Place::Vcpu { word: number, .. } => is_vcpu_word(number, word),
        Place::Refs { .. } => match RefWord::read(word) {
            Some(RefWord::Free { .. }) => true,
            Some(RefWord::Owned { owner, count, .. }) => owner < 2 && count <= state.limit,
            Some(RefWord::Dying { owner }) => owner < 2,
            None => false,
        },
        Place::Kind { .. } => match KindWord::read(word) {
            Some(kind) => !kind.validated || kind.number <= u64::from(state.limit),
            None => false,
        },
        Place::M2p { .. } | Place::Cell { .. } => true,
        Place::Map { .. } => word < 1 << FRAMES,
    }
}

fn is_vcpu_word(number: u64, word: u64) -> bool {
    if names_frames(number) {
        word <= FRAMES
    } else if number == 6 {
        word < 3
    } else if number == 7 {
        LdtBase::read(word).is_some()
    } else {
        true
    }
}
