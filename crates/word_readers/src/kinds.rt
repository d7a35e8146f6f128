//! What the kind word of a frame says.
ghost use Rattle.std.specs.Prelude.{◌≡◌, ◌<◌, ◌≤◌, length, IsTrue};
ghost use Rattle.xp_words.specs.KindWords.{has_form};
ghost use Rattle.xp_words.specs.declared.place.Place.TheVariants.{Kind};
ghost use Rattle.xp_words.specs.Places.{sizes_of, size, memory};
ghost use Rattle.xp_board.specs.Readings.{kind_at};
ghost use Rattle.xp_board.specs.Spelling.{IsSpelling};
ghost use Rattle.word_readers.specs.Recorded.{recorded_entries};

use crate::places::word_at;
use xp_words::{KindWord, Layout, Place};

/// The kind word of a frame.
#[tactic(auto, unfolding(xp_words::specs::Places::is_place), using(crate::proofs::Reading::kind_there, crate::proofs::Reading::kind_is, xp_board::proofs::KindForms::form_read, std::proofs::lemmas::Bool::Decides::nat_tests))]
pub fn kind_of(layout: &Layout, words: &[u64], frame: u32) -> KindWord
    requires frame { frame < layout.now.frames }
    requires words { length words.now ≡ size (sizes_of layout.now) }
    requires readable { IsSpelling layout.now (Kind frame) (memory (sizes_of layout.now) words.now (Kind frame)) }
    ensures kind { result ≡ kind_at (memory (sizes_of layout.now) words.now) frame }
    ensures form { IsTrue (has_form result) }
{
    KindWord::read(word_at(layout, words, Place::Kind { frame })).unwrap()
}

/// How many leading entries of a frame hold references, where no vCPU works on it: all of a live table, as many as its progress of a partial one.
#[tactic(auto, unfolding(xp_board::specs::Recorded::held_of, xp_words::specs::KindWords::has_form))]
pub fn recorded_entries(kind: &KindWord) -> u16
    ensures entries { result ≡ recorded_entries kind.now }
    ensures few { IsTrue (has_form kind.now) → result ≤ 512 }
{
    if !kind.kind.is_table() {
        0
    } else if kind.validated {
        512
    } else if kind.partial {
        kind.progress
    } else {
        0
    }
}
