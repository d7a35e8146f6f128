//! The marks of a frame, which are references to it, too.
ghost use Rattle.std.specs.Prelude.{◌≡◌, ◌<◌, length};
ghost use Rattle.xp_words.specs.Places.{size, sizes_of, memory};
ghost use Rattle.xp_words.specs.declared.place.Place.TheVariants.{Kind};
ghost use Rattle.xp_board.specs.Spelling.{IsSpelling};
ghost use Rattle.reference_recount.specs.Growth.{IsOfMarks};

use crate::tallies::Tally;
use word_readers::{is_allocated, kind_of};
use xp_words::Layout;

/// What a frame's own marks come to: those of a pin and of a kept type count are typed, that of its owner is not.
#[tactic(auto, unfolding(xp_board::specs::Recorded::marks))]
pub fn own_tally(layout: &Layout, words: &[u64], frame: u32) -> Tally
    requires sized { length words.now ≡ size (sizes_of layout.now) }
    requires frame { frame < layout.now.frames }
    requires readable { IsSpelling layout.now (Kind frame) (memory (sizes_of layout.now) words.now (Kind frame)) }
    ensures { IsOfMarks (memory (sizes_of layout.now) words.now) frame result }
{
    let kind = kind_of(layout, words, frame);
    let types = u64::from(kind.pinned) + u64::from(kind.kept);
    let owned = u64::from(is_allocated(layout, words, frame));
    Tally {
        refs: types + owned,
        types,
        mistyped: false,
    }
}
