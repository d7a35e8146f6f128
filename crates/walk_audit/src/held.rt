//! Frames that somebody has in hand.
ghost use Rattle.std.specs.Prelude.{◌≡◌, ◌<◌, ◌+◌, length, IsTrue, ◌↔◌};
ghost use Rattle.xp_words.specs.Places.{sizes_of, size, memory};
ghost use Rattle.reference_recount.specs.Recounted.{IsReadable};
ghost use Rattle.walk_audit.specs.Breaks.{IsHeld};
ghost use Rattle.walk_audit.specs.Order.{FirstVerdict};

use crate::verdict::Verdict;
use word_readers::{is_dying, kind_of};
use xp_words::Layout;

fn is_held(layout: &Layout, words: &[u64], frame: u32) -> bool
    requires frame { frame < layout.now.frames }
    requires words { length words.now ≡ size (sizes_of layout.now) }
    requires readable { IsReadable layout.now (memory (sizes_of layout.now) words.now) }
    ensures { IsTrue result ↔ IsHeld layout.now (memory (sizes_of layout.now) words.now) frame }
{
    let kind = kind_of(layout, words, frame);
    let is_work = !kind.validated && !kind.partial && kind.locked;
    let is_closing = kind.validated && kind.number == 0;
    let is_locked = kind.validated && kind.locked;
    is_work || is_closing || is_locked || is_dying(layout, words, frame)
}

fn held_frame(layout: &Layout, words: &[u64], frame: u32) -> Option<Verdict>
    requires frame { frame < layout.now.frames }
    requires words { length words.now ≡ size (sizes_of layout.now) }
    requires readable { IsReadable layout.now (memory (sizes_of layout.now) words.now) }
    ensures { FirstVerdict layout.now (memory (sizes_of layout.now) words.now) 1 frame (frame + 1) result }
{
    if is_held(layout, words, frame) {
        Some(Verdict::Held { frame })
    } else {
        None
    }
}

/// The first frame that is in work, closing, locked or dying.
pub fn first_held(layout: &Layout, words: &[u64]) -> Option<Verdict>
    requires words { length words.now ≡ size (sizes_of layout.now) }
    requires readable { IsReadable layout.now (memory (sizes_of layout.now) words.now) }
    ensures { FirstVerdict layout.now (memory (sizes_of layout.now) words.now) 1 0 layout.now.frames result }
{
    for frame in 0..layout.frames {
        if let Some(verdict) = held_frame(layout, words, frame) {
            return Some(verdict);
        }
    }
    None
}
