//! Words by what they are of.
#![tactic(auto, unfolding(xp_words::specs::Places::is_place), using(std::proofs::lemmas::Bool::Decides::nat_tests))]

ghost use Rattle.std.specs.Prelude.{◌≡◌, ◌<◌, length, IsTrue};
ghost use Rattle.xp_words.specs.declared.place.Place.TheVariants.{Pages, Life, Vcpu, Cell, Map, Priv};
ghost use Rattle.xp_words.specs.Places.{sizes_of, size, is_place, memory, map_words};

use xp_words::{Layout, Place};

/// The word at a place that the machine has.
#[inline(always)]
#[tactic(auto, unfolding(xp_words::specs::Places::memory), using(crate::proofs::Reading::inside))]
pub fn word_at(layout: &Layout, words: &[u64], place: Place) -> u64
    requires place { IsTrue (is_place (sizes_of layout.now) place) }
    requires words { length words.now ≡ size (sizes_of layout.now) }
    ensures { result ≡ memory (sizes_of layout.now) words.now place }
{
    words[layout.place(place) as usize]
}

pub fn pages_word(layout: &Layout, words: &[u64], domain: u16) -> u64
    requires domain { domain < length layout.now.page_limit }
    requires words { length words.now ≡ size (sizes_of layout.now) }
    ensures { result ≡ memory (sizes_of layout.now) words.now (Pages domain) }
{
    word_at(layout, words, Place::Pages { domain })
}

/// 0 where the domain is live, 255 where it is dead.
pub fn life_word(layout: &Layout, words: &[u64], domain: u16) -> u64
    requires domain { domain < length layout.now.page_limit }
    requires words { length words.now ≡ size (sizes_of layout.now) }
    ensures { result ≡ memory (sizes_of layout.now) words.now (Life domain) }
{
    word_at(layout, words, Place::Life { domain })
}

pub fn vcpu_word(layout: &Layout, words: &[u64], vcpu: u32, word: u32) -> u64
    requires vcpu { vcpu < length layout.now.vcpu_domain }
    requires word { word < 38 }
    requires words { length words.now ≡ size (sizes_of layout.now) }
    ensures { result ≡ memory (sizes_of layout.now) words.now (Vcpu vcpu word) }
{
    word_at(layout, words, Place::Vcpu { vcpu, word })
}

/// One of the 512 cells of a frame.
pub fn cell(layout: &Layout, words: &[u64], frame: u32, index: u16) -> u64
    requires frame { frame < layout.now.frames }
    requires index { index < 512 }
    requires words { length words.now ≡ size (sizes_of layout.now) }
    ensures { result ≡ memory (sizes_of layout.now) words.now (Cell frame index) }
{
    word_at(layout, words, Place::Cell { frame, index })
}

/// Over which domains that one has privilege now, in bits 0 to 15, and ever had, in bits 16 to 31.
pub fn privileges(layout: &Layout, words: &[u64], domain: u16) -> u64
    requires domain { domain < length layout.now.page_limit }
    requires words { length words.now ≡ size (sizes_of layout.now) }
    ensures { result ≡ memory (sizes_of layout.now) words.now (Priv domain) }
{
    word_at(layout, words, Place::Priv { domain })
}

/// A word of the map of free frames.
pub fn map_word(layout: &Layout, words: &[u64], word: u32) -> u64
    requires word { word < map_words (sizes_of layout.now) }
    requires words { length words.now ≡ size (sizes_of layout.now) }
    ensures { result ≡ memory (sizes_of layout.now) words.now (Map word) }
{
    word_at(layout, words, Place::Map { word })
}
