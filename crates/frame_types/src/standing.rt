//! How a frame stands to a type.
ghost use Rattle.std.specs.Prelude.{◌≡◌};
ghost use Rattle.frame_types.specs.Standing.{is_same_type, standing_of};

use xp_words::{KindWord, PageType};

/// What a kind word says of a frame that is to have a type.
#[derive(Clone, Copy, Debug, PartialEq, Eq)]
pub enum Standing {
    /// Of the type, with type counts.
    Counted,
    /// Of no type, whatever it was.
    Dead,
    /// Of the type, and its validation or its flush is unfinished.
    Partial,
    /// Of the type, and in another vCPU's hand.
    Busy,
    /// Of another type.
    Other,
}

fn is_same_type(kind: PageType, want: PageType) -> bool
    ensures { result ≡ is_same_type kind want }
{
    kind == want
}

pub(crate) fn classify(kind: KindWord, want: PageType) -> Standing
    ensures { result ≡ standing_of kind want }
{
    if !kind.validated && !kind.partial && !kind.locked {
        Standing::Dead
    } else if !is_same_type(kind.kind, want) {
        Standing::Other
    } else if kind.validated {
        if kind.number == 0 {
            Standing::Busy
        } else {
            Standing::Counted
        }
    } else if kind.partial {
        Standing::Partial
    } else {
        Standing::Busy
    }
}
