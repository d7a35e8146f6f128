//! The map of free frames.
ghost use Rattle.std.specs.Prelude.{◌≡◌, ◌≢◌, ◌<◌, ◌+◌, ◌*◌, length, IsTrue, ◌↔◌};
ghost use Rattle.xp_words.specs.Entries.{is_bit};
ghost use Rattle.xp_words.specs.Places.{sizes_of, size, memory, map_words};
ghost use Rattle.walk_audit.specs.Breaks.{IsWrongMap, is_free_frame};
ghost use Rattle.walk_audit.specs.Order.{FirstVerdict};

use crate::verdict::Verdict;
use word_readers::{is_free, map_word};
use xp_words::Layout;

fn is_free_frame(layout: &Layout, words: &[u64], frame: u32) -> bool
    requires { length words.now ≡ size (sizes_of layout.now) }
    ensures { result ≡ is_free_frame layout.now (memory (sizes_of layout.now) words.now) frame }
{
    frame < layout.frames && is_free(layout, words, frame)
}

fn is_wrong_map(layout: &Layout, words: &[u64], word: u32) -> bool
    requires word { word < map_words (sizes_of layout.now) }
    requires words { length words.now ≡ size (sizes_of layout.now) }
    ensures { IsTrue result ↔ IsWrongMap layout.now (memory (sizes_of layout.now) words.now) word }
{
    // So the prover knows that there are few frames.
    let _domains = layout.domains();
    let bits = map_word(layout, words, word);
    for bit in 0..64 {
        let is_set = (bits >> bit) % 2 == 1;
        if is_set != is_free_frame(layout, words, 64 * word + bit) {
            return true;
        }
    }
    false
}

fn wrong_map(layout: &Layout, words: &[u64], word: u32) -> Option<Verdict>
    requires word { word < map_words (sizes_of layout.now) }
    requires words { length words.now ≡ size (sizes_of layout.now) }
    ensures { FirstVerdict layout.now (memory (sizes_of layout.now) words.now) 8 word (word + 1) result }
{
    if is_wrong_map(layout, words, word) {
        Some(Verdict::Map { word })
    } else {
        None
    }
}

/// The first word of the map that is not the bits of the free frames.
pub fn first_wrong_map(layout: &Layout, words: &[u64]) -> Option<Verdict>
    requires { length words.now ≡ size (sizes_of layout.now) }
    ensures { FirstVerdict layout.now (memory (sizes_of layout.now) words.now) 8 0 (map_words (sizes_of layout.now)) result }
{
    for word in 0..layout.map_words() {
        if let Some(verdict) = wrong_map(layout, words, word) {
            return Some(verdict);
        }
    }
    None
}
