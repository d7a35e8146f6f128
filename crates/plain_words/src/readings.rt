//! What single words say.
ghost use Rattle.std.specs.Prelude.{◌≡◌, ◌&&◌, nat_lt};
ghost use Rattle.xp_words.specs.Entries.{demand_at};
ghost use Rattle.xp_board.specs.Acts.{left_by};
ghost use Rattle.xp_board.specs.FillSteps.{is_walked};
ghost use Rattle.xp_board.specs.Readings.{owner_of, free_stamp, is_free, is_work, is_dead, is_context};

use pte_check::demand;
use xp_board::Act;
use xp_words::{Demand, KindWord, PageType, RefWord};

/// Whether a word of a vCPU may name a frame.
pub fn names_frames(word: u64) -> bool
    ensures { result ≡ (nat_lt word 38 && is_context word) }
{
    word < 4 || (8 <= word && word < 38)
}

/// What an entry of a frame of that type asks. An index that no table has asks what any does that is no slot of the hypervisor's.
#[tactic(auto, unfolding(xp_words::specs::Entries::demand_at), using(std::proofs::lemmas::Bool::Decides::nat_tests))]
pub fn demand_at(kind: PageType, index: u64, word: u64) -> Demand
    ensures { result ≡ demand_at kind index word }
{
    demand(kind, index.min(u64::from(u16::MAX)) as u16, word)
}

/// Whether a bit is set; none is from 64 on.
pub fn bit_of(word: u64, bit: u64) -> bool {
    bit < 64 && (word >> bit) & 1 == 1
}

/// The word with that bit set.
pub fn with_bit(word: u64, bit: u64) -> u64 {
    if bit < 64 { word | (1 << bit) } else { word }
}

/// The word without that bit.
pub fn without_bit(word: u64, bit: u64) -> u64 {
    if bit < 64 && bit_of(word, bit) {
        word ^ (1 << bit)
    } else {
        word
    }
}

/// The domain that owns the frame of a reference word.
#[tactic(auto, unfolding(xp_board::specs::Readings::owner_of))]
pub fn owner_of(word: u64) -> Option<u16>
    ensures { result ≡ owner_of word }
{
    match RefWord::read(word) {
        Some(RefWord::Owned { owner, .. }) => Some(owner),
        Some(RefWord::Dying { owner }) => Some(owner),
        _ => None,
    }
}

/// The stamp of a free frame; 0 of any other.
#[tactic(auto, unfolding(xp_board::specs::Readings::free_stamp))]
pub fn free_stamp(word: u64) -> u64
    ensures { result ≡ free_stamp word }
{
    match RefWord::read(word) {
        Some(RefWord::Free { stamp }) => stamp,
        _ => 0,
    }
}

/// The stamp of a frame that is not live; 0 of a live one.
pub fn kind_stamp(word: u64) -> u64 {
    match KindWord::read(word) {
        Some(kind) if !kind.validated => kind.number,
        _ => 0,
    }
}

/// Owned by nobody.
#[tactic(auto, unfolding(xp_board::specs::Readings::is_free))]
pub fn is_free(word: u64) -> bool
    ensures { result ≡ is_free word }
{
    matches!(RefWord::read(word), Some(RefWord::Free { .. }))
}

/// In work, neither live nor partial.
pub fn is_work(kind: &KindWord) -> bool
    ensures { result ≡ is_work kind.now }
{
    !kind.validated && !kind.partial && kind.locked
}

/// Neither live, partial nor in work.
pub fn is_dead(kind: &KindWord) -> bool
    ensures { result ≡ is_dead kind.now }
{
    !kind.validated && !kind.partial && !kind.locked
}

/// Live, and the last type count was given back.
pub fn is_closing(word: u64) -> bool {
    matches!(KindWord::read(word), Some(k) if k.validated && k.number == 0)
}

/// A frame in work that waits for flushes.
pub fn is_marked(word: u64) -> bool {
    matches!(KindWord::read(word), Some(k) if k.unflushed)
}

/// Whether an address leads through the entry: the hypervisor's slots of a top table are not walked.
pub fn is_walked(level: u64, index: u64) -> bool
    ensures { result ≡ is_walked level index }
{
    index < 512 && !(level == 4 && 256 <= index && index < 272)
}

/// The word that an act leaves.
#[tactic(auto, unfolding(xp_board::specs::Acts::left_by))]
pub fn left_by(act: Act, found: u64) -> u64
    ensures { result ≡ left_by act found }
{
    match act {
        Act::Load => found,
        Act::Cas { expected, new } => { if found == expected { new } else { found } }
        Act::Store { new } => new,
        Act::Add { by } => found.wrapping_add(by),
        Act::Max { value } => found.max(value),
    }
}
