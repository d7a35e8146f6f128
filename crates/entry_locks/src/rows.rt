//! Entry locks and the entries under them, one step each.
ghost use Rattle.std.specs.Prelude.{◌≡◌, ◌≢◌, ◌<◌, None, Some, IfErr, MatchResult, IsTrue};
ghost use Rattle.xp_words.specs.declared.place.Place.TheVariants.{Cell, Kind};
ghost use Rattle.xp_words.specs.KindWords.{is_kind, kind_write};
ghost use Rattle.xp_board.specs.Acts.{left_by};
ghost use Rattle.xp_board.specs.Hands.{locks_on};
ghost use Rattle.xp_board.specs.KindSteps.{MayLock, locked_kind, unlocked, unlocked_down};
ghost use Rattle.xp_board.specs.declared.step.Act.TheVariants.{Add, Cas, Store};
ghost use Rattle.xp_board.specs.declared.step.StepKind.TheVariants as kinds;
ghost use Rattle.step_maker.specs.Holds.{Holds, MayWork};
ghost use Rattle.step_maker.specs.Moves.{Moves, found_by};
ghost use Rattle.kind_words.specs.Kinds.{looked_at};
ghost use Rattle.entry_locks.specs.Entries.{MayStoreEntry, MaySwapEntry, entry_set, entry_unset};
ghost use Rattle.entry_locks.specs.Locks.{took_lock};

use crate::words::locked;
use step_maker::{exchange, make};
use xp_board::{Act, Port, StepKind};
use xp_words::{KindWord, Place};

// Minus the lock and one type count, modulo 2^64.
const UNLOCKED: u64 = u64::MAX - (1 << 48);

/// Locks a live table by one exchange of the word that says this. An untyped reference in hand becomes the lock, which counts one type.
/// An exchange that finds another word answers it, and leaves the references as they were. `word`: as it was found.
#[inline(always)]
pub fn set_lock<P: Port>(port: &mut P, frame: u32, kind: KindWord, word: u64) -> Result<(), u64>
    requires spelled { word ≡ kind_write kind }
    requires frame { frame < (P.value port.old).post.machine.frames }
    requires may { MayWork (P.value port.old) }
    requires is { IsTrue (is_kind kind) }
    requires locks { MayLock (P.value port.old).post.machine frame kind (locked_kind kind) (P.value port.old).holdings }
    ensures moves { Moves (P.value port.old) (P.value port.new) (Kind frame) (Cas (kind_write kind) (kind_write (locked_kind kind))) kinds.Kind None (found_by (kind_write kind) result) }
    ensures lost { IfErr result (λ found. found ≢ kind_write kind) }
    ensures hand { MatchResult result (λ _. Holds (P.value port.old) (P.value port.new) (took_lock frame kind (P.value port.old).holdings)) (λ found. Holds (P.value port.old) (P.value port.new) (looked_at frame found (P.value port.old).holdings)) }
{
    let new = locked(kind, word);
    exchange(port, Place::Kind { frame }, word, new, StepKind::Kind)
}

/// Takes the own lock off a table, and its type count. It becomes an untyped reference. Answers the word that was found; where it counted
/// one type the table is closing in the hand.
#[inline(always)]
pub fn clear_lock<P: Port>(port: &mut P, frame: u32) -> u64
    requires frame { frame < (P.value port.old).post.machine.frames }
    requires may { MayWork (P.value port.old) }
    requires locked { 0 < locks_on frame (P.value port.old).holdings.locks }
    ensures moves { Moves (P.value port.old) (P.value port.new) (Kind frame) (Add unlocked_down) kinds.Kind None result }
    ensures hand { Holds (P.value port.old) (P.value port.new) (unlocked frame result (left_by (Add unlocked_down) result) (P.value port.old).holdings) }
{
    make(
        port,
        Place::Kind { frame },
        Act::Add { by: UNLOCKED },
        StepKind::Kind,
        None,
    )
}

/// Stores an entry of a table under the own lock. What it asks goes out of the hand, and what the old one asked comes into it; where both
/// ask the same nothing does. Answers the old one.
#[inline(always)]
pub fn store_entry<P: Port>(port: &mut P, table: u32, index: u16, new: u64) -> u64
    requires frame { table < (P.value port.old).post.machine.frames }
    requires index { index < 512 }
    requires may { MayWork (P.value port.old) }
    requires exchanges { MayStoreEntry (P.value port.old).post.machine table index new (P.value port.old).holdings }
    ensures moves { Moves (P.value port.old) (P.value port.new) (Cell table index) (Store new) kinds.Cell None result }
    ensures hand { Holds (P.value port.old) (P.value port.new) (entry_set table index new result (P.value port.old).holdings) }
{
    let entry = Place::Cell {
        frame: table,
        index,
    };
    make(port, entry, Act::Store { new }, StepKind::Cell, None)
}

/// The same by one exchange of the word that was found there last, under this lock. An exchange that finds another word answers it.
#[inline(always)]
pub fn swap_entry<P: Port>(
    port: &mut P,
    table: u32,
    index: u16,
    expected: u64,
    new: u64,
) -> Result<(), u64>
    requires frame { table < (P.value port.old).post.machine.frames }
    requires index { index < 512 }
    requires may { MayWork (P.value port.old) }
    requires exchanges { MaySwapEntry (P.value port.old).post.machine table index expected new (P.value port.old).holdings }
    ensures moves { Moves (P.value port.old) (P.value port.new) (Cell table index) (Cas expected new) kinds.Cell None (found_by expected result) }
    ensures lost { IfErr result (λ found. found ≢ expected) }
    ensures hand { MatchResult result (λ _. Holds (P.value port.old) (P.value port.new) (entry_set table index new expected (P.value port.old).holdings)) (λ found. Holds (P.value port.old) (P.value port.new) (entry_unset table index found (P.value port.old).holdings)) }
{
    let entry = Place::Cell {
        frame: table,
        index,
    };
    exchange(port, entry, expected, new, StepKind::Cell)
}
