//! Kind words that steps leave.
ghost use Rattle.std.specs.Prelude.{◌≡◌, ◌+◌, ◌^◌, ◌==◌, ◌<◌, not, if◌then◌else◌, IsTrue};
ghost use Rattle.xp_words.specs.KindWords.{is_kind, kind_fields, kind_write};
ghost use Rattle.xp_words.specs.PageTypes.{is_none};
ghost use Rattle.xp_board.specs.KindSteps.{begun_kind, raised_kind, resumed_kind, is_stale};
ghost use Rattle.xp_board.specs.Readings.{is_live, is_dead, is_partial};

use xp_words::{KindWord, PageType};

// The word with one type count more.
#[inline(always)]
#[tactic(auto, unfolding(xp_words::specs::KindWords::kind_write), using(crate::proofs::KindWriting::raised_word))]
pub(crate) fn raised(kind: KindWord, word: u64) -> u64
    requires spelled { word ≡ kind_write kind }
    requires is { IsTrue (is_kind kind) }
    requires live { IsTrue (is_live kind) }
    requires counted { 0 < kind.number }
    requires small { kind.number + 1 < 2 ^ 26 }
    ensures { result ≡ kind_write (raised_kind kind) }
{
    word + 1
}

/// Whether a dead frame has to be flushed before it is used with that type: it is marked, or was of another type.
pub fn is_stale_for(kind: KindWord, want: PageType) -> bool
    ensures { result ≡ is_stale kind want }
{
    kind.unflushed || (!kind.kind.is_none() && kind.kind.number() != want.number())
}

// The number, or 0.
fn only_if(kept: bool, number: u64) -> u64
    ensures { result ≡ (if kept then number else 0) }
{
    if kept { number } else { 0 }
}

// The word of a dead frame that comes into work.
#[tactic(auto, using(crate::proofs::KindWriting::begun_is))]
pub(crate) fn begun(kind: KindWord, want: PageType) -> u64
    requires is { IsTrue (is_kind kind) }
    requires dead { IsTrue (is_dead kind) }
    requires wanted { IsTrue (not (is_none want)) }
    ensures { result ≡ kind_write (begun_kind kind want) }
{
    let unflushed = is_stale_for(kind, want);
    let number = only_if(unflushed, kind.number);
    let work = KindWord {
        kind: want,
        pinned: false,
        validated: false,
        partial: false,
        locked: true,
        kept: false,
        unflushed,
        progress: 0,
        number,
    };
    work.write()
}

// The word of a partial frame that comes into work.
#[tactic(auto, using(crate::proofs::KindWriting::resumed_is))]
pub(crate) fn resumed(kind: KindWord) -> u64
    requires is { IsTrue (is_kind kind) }
    requires partial { IsTrue (is_partial kind) }
    ensures { result ≡ kind_write (resumed_kind kind) }
{
    let work = KindWord {
        partial: false,
        locked: true,
        kept: false,
        progress: 0,
        ..kind
    };
    work.write()
}

/// Whether the word counts one type, by its number alone.
#[tactic(auto, unfolding(xp_words::specs::KindWords::kind_fields))]
pub fn counts_one(word: u64) -> bool
    ensures { result ≡ ((kind_fields word).number == 1) }
{
    word % (1 << 36) == 1
}
