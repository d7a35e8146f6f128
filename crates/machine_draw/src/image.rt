ghost use Rattle.std.specs.Prelude.{◌≡◌, length, IsTrue};
ghost use Rattle.xp_words.specs.Places.{sizes_of, size, is_place};
ghost use Rattle.report_text.specs.Memories.{word};

use std::marker::Model;
use word_readers::word_at;
use xp_words::{Layout, Place};

/// A machine and all its words, which are read by name.
#[derive(Drop)]
pub struct Image<'a> {
    layout: &'a Layout,
    words: &'a [u64],
}

impl<'a> Model for Image<'a> {
    ghost use Rattle.report_text.specs.Memories.{Memory, IsWhole};

    ghost Value = { Memory };

    ghost view = { λ s. record { machine = s.layout.now; words = s.words.now } };

    ghost invariant = { λ s. IsWhole (record { machine = s.layout.now; words = s.words.now }) };
}

#[tactic(auto, unfolding(report_text::specs::Memories::word))]
impl<'a> Image<'a> {
    /// Both are borrowed: nothing is copied.
    pub fn new(layout: &'a Layout, words: &'a [u64]) -> Image<'a>
        requires { length words.now ≡ size (sizes_of layout.now) }
        ensures { result ≡ record { machine = layout.now; words = words.now } }
    {
        Image { layout, words }
    }

    /// The machine, for as long as it was lent.
    pub fn layout(&self) -> &'a Layout
        ensures { result.now ≡ self.now.machine }
    {
        self.layout
    }

    /// How many frames the machine has.
    pub fn frames(&self) -> u32
        ensures { result ≡ self.now.machine.frames }
    {
        let layout = self.layout;
        layout.frames
    }

    /// The word at a place that the machine has.
    pub fn word(&self, place: Place) -> u64
        requires { IsTrue (is_place (sizes_of self.now.machine) place) }
        ensures { result ≡ word self.now place }
    {
        word_at(self.layout, self.words, place)
    }
}
