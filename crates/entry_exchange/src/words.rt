//! New words of entries.
ghost use Rattle.std.specs.Prelude.{◌≡◌};
ghost use Rattle.entry_exchange.specs.Words.{same_demand, word_kept};

use xp_words::Demand;

// The accessed and dirty bits (`_PAGE_ACCESSED`, `_PAGE_DIRTY` of Xen's `page.h`), which a walk sets.
const ACCESSED_AND_DIRTY: u64 = 0x60;

// The new word; where these are kept, with the accessed and dirty bits of the old one.
pub(crate) fn word_kept(keep: bool, old: u64, new: u64) -> u64
    ensures { result ≡ word_kept keep old new }
{
    if keep {
        new | (old & ACCESSED_AND_DIRTY)
    } else {
        new
    }
}

// Whether two entries ask the same.
pub(crate) fn is_same(new: Demand, old: Demand) -> bool
    ensures { result ≡ same_demand new old }
{
    match (new, old) {
        (Demand::Nothing, Demand::Nothing) => true,
        (Demand::Read { frame }, Demand::Read { frame: other }) => frame == other,
        (
            Demand::Typed { frame, kind },
            Demand::Typed {
                frame: other,
                kind: was,
            },
        ) => frame == other && kind == was,
        _ => false,
    }
}
