//! Kind words with an entry lock, and whether a table may get one.
ghost use Rattle.std.specs.Prelude.{◌≡◌, ◌+◌, ◌^◌, ◌<◌, false, IsTrue};
ghost use Rattle.xp_words.specs.KindWords.{is_kind, kind_write};
ghost use Rattle.xp_words.specs.PageTypes.{is_table};
ghost use Rattle.xp_board.specs.KindSteps.{locked_kind};
ghost use Rattle.xp_board.specs.Readings.{is_live};
ghost use Rattle.entry_locks.specs.Locks.{is_lockable, is_worked_on};

use xp_words::KindWord;

// The lock and one type count.
const LOCK_AND_ONE: u64 = (1 << 48) + 1;

// The word of a live table, locked and with one type count more.
#[tactic(auto, unfolding(xp_words::specs::KindWords::kind_write), using(crate::proofs::LockWriting::locked_word))]
pub(crate) fn locked(kind: KindWord, word: u64) -> u64
    requires spelled { word ≡ kind_write kind }
    requires is { IsTrue (is_kind kind) }
    requires live { IsTrue (is_live kind) }
    requires table { IsTrue (is_table kind.kind) }
    requires unlocked { kind.locked ≡ false }
    requires counted { 0 < kind.number }
    requires small { kind.number + 1 < 2 ^ 26 }
    ensures { result ≡ kind_write (locked_kind kind) }
{
    word + LOCK_AND_ONE
}

// Whether a table may be locked: it is live, and nobody has it in hand.
pub(crate) fn is_free_table(kind: KindWord) -> bool
    requires { IsTrue (is_table kind.kind) }
    ensures { result ≡ is_lockable kind }
{
    kind.validated && !kind.locked && kind.number > 0
}

// Whether another vCPU has a table in hand: it is in work, locked or closing.
pub(crate) fn is_worked_on(kind: KindWord) -> bool
    requires { IsTrue (is_table kind.kind) }
    ensures { result ≡ is_worked_on kind }
{
    if kind.validated {
        kind.locked || kind.number == 0
    } else {
        kind.locked && !kind.partial
    }
}
