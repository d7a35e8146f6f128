//! Tables that are locked for one entry, and unlocked.
ghost use Rattle.std.specs.Prelude.{◌≡◌, ◌<◌, ℕ, [], true, None, Some, IfErr, IsTrue};
ghost use Rattle.xp_words.specs.declared.place.Place.TheVariants.{Kind};
ghost use Rattle.xp_board.specs.declared.holdings.Lock.{Lock};
ghost use Rattle.xp_board.specs.declared.step.Act.TheVariants.{Add};
ghost use Rattle.xp_board.specs.Hands.{lock_on, work_on};
ghost use Rattle.xp_board.specs.KindSteps.{unlocked_down};
ghost use Rattle.xp_board.specs.Told.{PortValue, is_telling, told_word};
ghost use Rattle.step_maker.specs.Holds.{MayWork};
ghost use Rattle.step_maker.specs.Plain.{Leaves, change};
ghost use Rattle.step_maker.specs.Answers.{Serves, Stops, misses};
ghost use Rattle.step_maker.specs.Asked.{of_back};
ghost use Rattle.entry_locks.specs.Found.{LocksFound};
ghost use Rattle.entry_locks.specs.Locks.{IsLockStop, LeavesLocked, Unlocks, of_lock};
ghost use Rattle.entry_locks.specs.Looked.{IsSeenToLock, LocksAs, MayLockEntry, SeenToLock};
ghost use Rattle.entry_locks.specs.Plain.{TwinLock};

use crate::rows::{clear_lock, set_lock};
use crate::words::{is_free_table, is_worked_on};
use kind_words::{counts_one, look_kind, lost, read_kind};
use partial_state::level_of;
use xp_board::Port;
use xp_words::{Pause, Stop};

/// What a frame is to who would exchange an entry of it.
#[derive(Clone, Copy, Debug, PartialEq, Eq, Drop)]
pub enum Locked {
    /// A live table of that level, 1 to 4, under the own entry lock now. `found`: its kind word before.
    Table { level: u8, found: u64 },
    /// Neither a live table nor one that another vCPU works on; nothing has changed. `found`: its kind word.
    Other { found: u64 },
}

/// Locks a live table for one entry, under the untyped reference in hand, which becomes the lock. A table that another vCPU works on, or
/// has locked, pauses it. A pause leaves the reference in hand. (Xen takes its page lock here, `page_lock` of `mm.c`.)
pub fn lock_entry<P: Port>(port: &mut P, frame: u32, owner: u16) -> Result<Locked, Stop>
    requires { MayLockEntry (P.value port.old) frame owner }
    ensures serves { Serves (P.value port.old) (P.value port.new) (of_lock frame owner) (misses (P.value port.old).post.machine result) }
    ensures stops { IfErr result (λ e. Stops (P.value port.old) (P.value port.new) (of_lock frame owner) e) }
    ensures kinds { IfErr result IsLockStop }
    ensures hand { LeavesLocked (P.value port.old) (P.value port.new) frame owner result }
    ensures found { LocksFound (P.value port.old) (P.value port.new) frame result }
    ensures plain { TwinLock (P.value port.old) (P.value port.new) frame result }
{
    let word = look_kind(port, frame);
    lock_found(port, frame, owner, word)
}

// The same, where a look just found that kind word.
fn lock_found<P: Port>(port: &mut P, frame: u32, owner: u16, word: u64) -> Result<Locked, Stop>
    requires frame { frame < (P.value port.old).post.machine.frames }
    requires may { MayWork (P.value port.old) }
    requires looked { IsSeenToLock (P.value port.old) frame owner word }
    ensures locks { (b : PortValue) → SeenToLock b (P.value port.old) frame owner word → LocksAs b (P.value port.new) frame owner result }
{
    let kind = read_kind(word);
    if !kind.kind.is_table() {
        return Ok(Locked::Other { found: word });
    }
    if is_free_table(kind) {
        return match set_lock(port, frame, kind, word) {
            Ok(()) => Ok(Locked::Table {
                level: level_of(kind.kind),
                found: word,
            }),
            Err(found) => Err(lost(port, frame, word, found)),
        };
    }
    if is_worked_on(kind) {
        return Err(Stop::Paused(Pause::Busy { frame, found: word }));
    }
    Ok(Locked::Other { found: word })
}

/// Takes the own entry lock off a table. The lock becomes an untyped reference. True: it was the last type count, and the table is closing
/// in the hand, with all its entries recorded.
pub fn unlock_entry<P: Port>(port: &mut P, frame: u32) -> bool
    requires frame { frame < (P.value port.old).post.machine.frames }
    requires may { MayWork (P.value port.old) }
    requires locked { (e : Lock) × (lock_on frame (P.value port.old).holdings.locks ≡ Some e) }
    requires apart { work_on frame (P.value port.old).holdings.works ≡ None }
    ensures serves { Serves (P.value port.old) (P.value port.new) (of_back frame) [] }
    ensures unlocks { Unlocks (P.value port.old) (P.value port.new) frame result }
    ensures plain { is_telling (P.value port.old) ≡ true → Leaves (P.value port.new) (change (Add unlocked_down) (Kind frame) (told_word (P.value port.old))) }
{
    counts_one(clear_lock(port, frame))
}
