//! What the reference word of a frame says.
#![tactic(auto, unfolding(xp_words::specs::Places::is_place), using(std::proofs::lemmas::Bool::Decides::nat_tests))]

ghost use Rattle.std.specs.Prelude.{◌≡◌, ◌<◌, length};
ghost use Rattle.xp_words.specs.declared.place.Place.TheVariants.{Refs};
ghost use Rattle.xp_words.specs.Places.{sizes_of, size, memory};
ghost use Rattle.xp_words.specs.RefWords.{ref_read, bit};
ghost use Rattle.xp_board.specs.Readings.{owner_of, is_free, is_dying, ref_count, allocated_mark, free_stamp};

use crate::places::word_at;
use xp_words::{Layout, Place, RefWord};

/// The reference word of a frame, if it is a spelling.
fn reference(layout: &Layout, words: &[u64], frame: u32) -> Option<RefWord>
    requires frame { frame < layout.now.frames }
    requires words { length words.now ≡ size (sizes_of layout.now) }
    ensures { result ≡ ref_read (memory (sizes_of layout.now) words.now (Refs frame)) }
{
    RefWord::read(word_at(layout, words, Place::Refs { frame }))
}

/// The domain that owns the frame.
#[tactic(auto, unfolding(xp_board::specs::Readings::owner_of))]
pub fn owner(layout: &Layout, words: &[u64], frame: u32) -> Option<u16>
    requires frame { frame < layout.now.frames }
    requires words { length words.now ≡ size (sizes_of layout.now) }
    ensures { result ≡ owner_of (memory (sizes_of layout.now) words.now (Refs frame)) }
{
    match reference(layout, words, frame) {
        Some(RefWord::Owned { owner, .. }) => Some(owner),
        Some(RefWord::Dying { owner }) => Some(owner),
        _ => None,
    }
}

#[tactic(auto, unfolding(xp_board::specs::Readings::is_free))]
pub fn is_free(layout: &Layout, words: &[u64], frame: u32) -> bool
    requires frame { frame < layout.now.frames }
    requires words { length words.now ≡ size (sizes_of layout.now) }
    ensures { result ≡ is_free (memory (sizes_of layout.now) words.now (Refs frame)) }
{
    match reference(layout, words, frame) {
        Some(RefWord::Free { .. }) => true,
        _ => false,
    }
}

#[tactic(auto, unfolding(xp_board::specs::Readings::is_dying))]
pub fn is_dying(layout: &Layout, words: &[u64], frame: u32) -> bool
    requires frame { frame < layout.now.frames }
    requires words { length words.now ≡ size (sizes_of layout.now) }
    ensures { result ≡ is_dying (memory (sizes_of layout.now) words.now (Refs frame)) }
{
    match reference(layout, words, frame) {
        Some(RefWord::Dying { .. }) => true,
        _ => false,
    }
}

/// The reference count of a frame; 0 where it is free or dying.
#[tactic(auto, unfolding(xp_board::specs::Readings::ref_count))]
pub fn ref_count(layout: &Layout, words: &[u64], frame: u32) -> u64
    requires frame { frame < layout.now.frames }
    requires words { length words.now ≡ size (sizes_of layout.now) }
    ensures { result ≡ ref_count (memory (sizes_of layout.now) words.now (Refs frame)) }
{
    match reference(layout, words, frame) {
        Some(RefWord::Owned { count, .. }) => u64::from(count),
        _ => 0,
    }
}

/// Whether the frame has its allocated mark.
#[tactic(auto, unfolding(xp_board::specs::Readings::allocated_mark))]
pub fn is_allocated(layout: &Layout, words: &[u64], frame: u32) -> bool
    requires frame { frame < layout.now.frames }
    requires words { length words.now ≡ size (sizes_of layout.now) }
    ensures { bit result ≡ allocated_mark (memory (sizes_of layout.now) words.now (Refs frame)) }
{
    match reference(layout, words, frame) {
        Some(RefWord::Owned { allocated, .. }) => allocated,
        _ => false,
    }
}

/// The clock value with which a free frame became free; 0 of any other.
#[tactic(auto, unfolding(xp_board::specs::Readings::free_stamp))]
pub fn free_stamp(layout: &Layout, words: &[u64], frame: u32) -> u64
    requires frame { frame < layout.now.frames }
    requires words { length words.now ≡ size (sizes_of layout.now) }
    ensures { result ≡ free_stamp (memory (sizes_of layout.now) words.now (Refs frame)) }
{
    match reference(layout, words, frame) {
        Some(RefWord::Free { stamp }) => stamp,
        _ => 0,
    }
}
