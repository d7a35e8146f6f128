//! Kind words without their mark.
ghost use Rattle.std.specs.Prelude.{◌≡◌, IsTrue};
ghost use Rattle.xp_words.specs.KindWords.{is_kind, kind_write};
ghost use Rattle.xp_board.specs.Readings.{is_partial};
ghost use Rattle.kept_marks.specs.Marks.{IsUnpaged, unkept_kind};

use xp_words::KindWord;

// The word of a partial frame, without its mark.
pub(crate) fn unkept(kind: KindWord) -> u64
    requires is { IsTrue (is_kind kind) }
    requires partial { IsTrue (is_partial kind) }
    requires page { IsUnpaged kind }
    ensures { result ≡ kind_write (unkept_kind kind) }
{
    let word = KindWord {
        kept: false,
        ..kind
    };
    word.write()
}
