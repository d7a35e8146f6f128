//! The entry of level 1 that maps an address, set.
ghost use Rattle.std.specs.Prelude.{◌≡◌, ◌<◌, Some, false};
ghost use Rattle.xp_words.specs.declared.kind.PageType.TheVariants.{L1};
ghost use Rattle.xp_words.specs.declared.reply.Refusal.TheVariants.{OtherType};
ghost use Rattle.xp_words.specs.declared.reply.Stop.TheVariants.{Refused};
ghost use Rattle.xp_board.specs.Told.{PortValue};
ghost use Rattle.step_maker.specs.Holds.{Rests};
ghost use Rattle.step_maker.specs.Moves.{Came};
ghost use Rattle.foreign_map.specs.Owning.{MayMapFor};
ghost use Rattle.table_words.specs.OldWords.{known_old};
ghost use Rattle.table_words.specs.declared.old_words.OldWord.TheVariants.{First, Second};
ghost use Rattle.mmu_update.specs.UpdatesAt.{EntersAtBy, UpdatesAtBy};
ghost use Rattle.mmu_update.specs.Writing.{IsReferred, IsUnderLock, MayBeginElement, Referred, UnderLock};

use crate::addresses::table_at;
use entry_exchange::{EntryUpdate, exchange_entry, leave_lock};
use entry_locks::{Locked, lock_entry};
use foreign_map::Owners;
use frame_words::{get_ref, put_ref};
use tlb_walks::index_at;
use xp_board::Port;
use xp_preempt::Preempt;
use xp_words::{PageType, Refusal, Stop};

// The level of the tables whose entries map addresses.
const LAST: u8 = 1;

/// The entry part of `update_va_mapping` and `update_va_mapping_otherdomain` of `xen.h`: the entry of level 1 that maps the address `va` in the
/// kernel's tables of the own vCPU is set to `word`. `owners.tables` is the domain whose table it is, `owners.frames` that of the frame that the
/// word maps. The vCPU itself calls it, in its turn, with nothing in hand. Both old words are known to name no frame; what a paused release
/// leaves of the old entry stands in them, and the update is done all the same.
///
/// Refused are, in this order: an address that is not canonical; one whose bits 39 to 47 are 256 to 271, Xen's own slots; one for which there is
/// no top table (level 5, word 0), or an entry is not present or names no frame of the machine (its level, 4 to 2, and the word); then what an
/// entry of a live table is refused for, and any frame that is no live table of level 1 (`OtherType`). It loads the entries on the way, and sets
/// no bits of them.
pub fn update_at<P: Port>(
    port: &mut P,
    gate: &mut dyn Preempt,
    owners: Owners,
    va: u64,
    word: u64,
) -> Result<(), Stop>
    requires rests { Rests (P.value port.old) }
    requires maps { MayMapFor (P.value port.old) owners }
    requires room { known_old First (P.value port.old).holdings ≡ Some 0 }
    requires room_too { known_old Second (P.value port.old).holdings ≡ Some 0 }
    ensures came { Came (P.value port.old) (P.value port.new) }
    // What it promises are the fields of that record, in specs/UpdatesAt.antt.
    ensures updates { UpdatesAtBy (P.value port.old) (P.value port.new) owners va word (policy gate.old) (policy gate.new) result }
{
    match table_at(port, va) {
        Ok(table) => enter_table(port, gate, owners, table, va, word),
        Err(stop) => Err(stop),
    }
}

// The entry of that table, to which the address led.
fn enter_table<P: Port>(
    port: &mut P,
    gate: &mut dyn Preempt,
    owners: Owners,
    table: u32,
    va: u64,
    word: u64,
) -> Result<(), Stop>
    requires begins { MayBeginElement (P.value port.old) owners }
    ensures { EntersAtBy (P.value port.old) (P.value port.new) owners va table word (policy gate.old) (policy gate.new) result }
{
    let frame = get_ref(port, u64::from(table), owners.tables)?;
    enter_referred(port, gate, owners, frame, va, word)
}

// The same under a reference to it.
fn enter_referred<P: Port>(
    port: &mut P,
    gate: &mut dyn Preempt,
    owners: Owners,
    table: u32,
    va: u64,
    word: u64,
) -> Result<(), Stop>
    requires referred { IsReferred (P.value port.old) owners table }
    ensures { (b : PortValue) → Referred b (P.value port.old) owners table →
        EntersAtBy b (P.value port.new) owners va table word (policy gate.old) (policy gate.new) result }
{
    match lock_entry(port, table, owners.tables) {
        Ok(Locked::Table { level, found }) if level != LAST => {
            leave_lock(port, table, level);
            Err(other_type(table, found))
        }
        Ok(Locked::Table { .. }) => enter_locked(port, gate, owners, table, va, word),
        Ok(Locked::Other { found }) => {
            put_ref(port, table);
            Err(other_type(table, found))
        }
        Err(stop) => {
            put_ref(port, table);
            Err(stop)
        }
    }
}

// The same under its lock: it is a table of level 1.
fn enter_locked<P: Port>(
    port: &mut P,
    gate: &mut dyn Preempt,
    owners: Owners,
    table: u32,
    va: u64,
    word: u64,
) -> Result<(), Stop>
    requires locked { IsUnderLock (P.value port.old) owners table 1 }
    ensures { (b : PortValue) → UnderLock b (P.value port.old) owners table 1 →
        EntersAtBy b (P.value port.new) owners va table word (policy gate.old) (policy gate.new) result }
{
    let update = EntryUpdate {
        table,
        level: LAST,
        index: index_at(va, LAST),
        word,
        keep: false,
    };
    exchange_entry(port, gate, update, owners)
}

fn other_type(frame: u32, found: u64) -> Stop
    ensures { result ≡ Refused (OtherType frame L1 found) }
{
    Stop::Refused(Refusal::OtherType {
        frame,
        want: PageType::L1,
        found,
    })
}
