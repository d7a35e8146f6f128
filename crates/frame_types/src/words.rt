//! What is said of frames that are left.
ghost use Rattle.std.specs.Prelude.{◌≡◌, if◌then◌else◌};
ghost use Rattle.frame_types.specs.Plain.{is_read_first};
ghost use Rattle.frame_types.specs.Taking.{progress_of};

use xp_words::{KindWord, PageType};

/// How many type counts a frame has that is made live: the own one, or another holder's too.
pub(crate) fn counts(own: bool) -> u64
    ensures { result ≡ (if own then 1 else 2) }
{
    if own { 1 } else { 2 }
}

/// Whether the frame is read before it is live.
pub(crate) fn is_read_first(want: PageType) -> bool
    ensures { result ≡ is_read_first want }
{
    want.is_table() || want.number() == 5
}

/// How many entries are recorded of a frame that is partial.
pub(crate) fn progress_of(kind: KindWord) -> u16
    ensures { result ≡ progress_of kind }
{
    if kind.partial { kind.progress } else { 0 }
}
