//! The words of a machine, in little memory (sparse_words).
ghost use Rattle.std.specs.Prelude.{◌≡◌, length};

use crate::machines::small_layout;
use sparse_words::SparseWords;
use std::process::Abort;

/// The word at a place, if there is such a place.
pub fn word_at(words: &SparseWords, place: u32) -> Option<u64> {
    if place < words.len() {
        Some(words.get(place))
    } else {
        None
    }
}

/// Sets the word at a place, if there is such a place.
pub fn put(words: &mut SparseWords, place: u32, word: u64)
    ensures { length words.new ≡ length words.old }
{
    if place < words.len() {
        words.set(place, word);
    }
}

// Places and words: the reference word of the last frame, its last cell, and the words at both ends.
const SET: [(u32, u64); 4] = [(0, 7), (33003, 8), (33517, 9), (33521, 10)];

// Beside these, frame 2 with the words beside its cells, and the end of frame 3.
const READ: [(u32, u64); 13] = [
    (0, 7),
    (33003, 8),
    (33517, 9),
    (33516, 0),
    (33521, 10),
    (1075, 0),
    (1076, 5),
    (1587, 5),
    (1588, 0),
    (2090, 0),
    (2091, 6),
    (2102, 6),
    (2103, 0),
];

// A small machine's words, of which two runs of cells and then those words are set.
fn stored(rt: &(impl Abort + AllocGlobal)) -> SparseWords {
    let layout = small_layout();
    let mut words = SparseWords::new(rt.alloc(), &layout).expect(rt, "memory");
    words.fill(&layout, 2, 0, 512, 5);
    words.fill(&layout, 3, 500, 12, 6);
    for (place, word) in SET.iter() {
        put(&mut words, *place, *word);
    }
    words
}

#[test]
fn words_are_read_as_they_were_stored(rt: HostRuntime) {
    let words = stored(&rt);
    assert!(rt; words.len() == 33522);
    for (place, word) in READ.iter() {
        assert!(rt; word_at(&words, *place) == Some(*word), "at {place}");
    }
}
