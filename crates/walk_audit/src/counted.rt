//! The counts of each frame, against its recorded references.
ghost use Rattle.std.specs.Prelude.{◌≡◌, ◌<◌, ◌+◌, ◌*◌, length, ℕ};
ghost use Rattle.xp_words.specs.Places.{sizes_of, size, memory};
ghost use Rattle.xp_board.specs.Readings.{type_count};
ghost use Rattle.reference_recount.specs.Recounted.{IsReadable, IsTally, tally_at};
ghost use Rattle.walk_audit.specs.Order.{FirstVerdict};

use crate::verdict::Verdict;
use reference_recount::Tally;
use word_readers::{kind_of, ref_count};
use xp_words::{KindWord, Layout};

/// The type count that a kind word tells. A frame that is in work or partial has one.
#[tactic(auto, unfolding(xp_board::specs::Readings::type_count))]
fn type_count(kind: &KindWord) -> u64
    ensures { result ≡ type_count kind.now }
{
    if kind.validated {
        kind.number
    } else {
        u64::from(kind.partial || kind.locked)
    }
}

/// What is wrong with the frame first: its references, its type count, or their types.
fn wrong_count(layout: &Layout, words: &[u64], frame: u32, tally: Tally) -> Option<Verdict>
    requires frame { frame < layout.now.frames }
    requires words { length words.now ≡ size (sizes_of layout.now) }
    requires readable { IsReadable layout.now (memory (sizes_of layout.now) words.now) }
    requires tally { IsTally layout.now (memory (sizes_of layout.now) words.now) frame tally }
    ensures { FirstVerdict layout.now (memory (sizes_of layout.now) words.now) 2 (3 * frame) (3 * frame + 3) result }
{
    let refs = ref_count(layout, words, frame);
    let types = type_count(&kind_of(layout, words, frame));
    if refs != tally.refs {
        Some(Verdict::Refs {
            frame,
            want: tally.refs,
            found: refs,
        })
    } else if types != tally.types {
        Some(Verdict::Count {
            frame,
            want: tally.types,
            found: types,
        })
    } else if tally.mistyped {
        Some(Verdict::OtherKind { frame })
    } else {
        None
    }
}

/// The first frame whose counts, or whose type, are not those of its recorded references.
pub fn first_wrong_count(layout: &Layout, words: &[u64], tallies: &[Tally]) -> Option<Verdict>
    requires words { length words.now ≡ size (sizes_of layout.now) }
    requires readable { IsReadable layout.now (memory (sizes_of layout.now) words.now) }
    requires all { length tallies.now ≡ layout.now.frames }
    requires each { (g : ℕ) → g < layout.now.frames → IsTally layout.now (memory (sizes_of layout.now) words.now) g (tally_at tallies.now g) }
    ensures { FirstVerdict layout.now (memory (sizes_of layout.now) words.now) 2 0 (3 * layout.now.frames) result }
{
    for frame in 0..layout.frames {
        let tally = tallies[frame as usize];
        if let Some(verdict) = wrong_count(layout, words, frame, tally) {
            return Some(verdict);
        }
    }
    None
}
