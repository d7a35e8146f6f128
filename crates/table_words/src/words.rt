//! Kind words with a pin and without.
ghost use Rattle.std.specs.Prelude.{◌≡◌, ◌<◌, true, IsTrue};
ghost use Rattle.xp_words.specs.KindWords.{is_kind, kind_write};
ghost use Rattle.xp_words.specs.PageTypes.{is_table};
ghost use Rattle.xp_board.specs.Readings.{is_live};
ghost use Rattle.table_words.specs.Pins.{pinned_kind, unpinned_kind};

use xp_words::KindWord;

// The word of a live table, with a pin.
#[tactic(auto, using(crate::proofs::PinWords::pinned_is))]
pub(crate) fn pinned(kind: KindWord) -> u64
    requires is { IsTrue (is_kind kind) }
    requires live { IsTrue (is_live kind) }
    requires table { IsTrue (is_table kind.kind) }
    requires counted { 0 < kind.number }
    ensures { result ≡ kind_write (pinned_kind kind) }
{
    let word = KindWord {
        pinned: true,
        ..kind
    };
    word.write()
}

// The word of a live table, without one.
#[tactic(auto, using(crate::proofs::PinWords::unpinned_is))]
pub(crate) fn unpinned(kind: KindWord) -> u64
    requires is { IsTrue (is_kind kind) }
    requires live { IsTrue (is_live kind) }
    ensures { result ≡ kind_write (unpinned_kind kind) }
{
    let word = KindWord {
        pinned: false,
        ..kind
    };
    word.write()
}
