//! One entry of a live table under its entry lock, exchanged.
ghost use Rattle.std.specs.Prelude.{◌≡◌, ◌≢◌, ◌<◌, ◌≤◌, Some, false};
ghost use Rattle.xp_words.specs.Entries.{is_slot};
ghost use Rattle.xp_words.specs.declared.entry.Demand.TheVariants.{Bad};
ghost use Rattle.partial_state.specs.Levels.{level_type};
ghost use Rattle.step_maker.specs.Holds.{MayWork};
ghost use Rattle.entry_locks.specs.Entries.{MaySwapEntry};
ghost use Rattle.foreign_map.specs.Owning.{MayMapFor};
ghost use Rattle.table_words.specs.OldWords.{known_old};
ghost use Rattle.table_words.specs.declared.old_words.OldWord.TheVariants.{First, Second};
ghost use Rattle.entry_exchange.specs.Course.{new_demand, old_demand};
ghost use Rattle.entry_exchange.specs.Holding.{HoldsTableLock, owner_at};
ghost use Rattle.entry_exchange.specs.Parts.{DemandChanged, EntryExchanged, EntryPut, HoldsSeen};
ghost use Rattle.entry_exchange.specs.Words.{same_demand};

use crate::demands::{give_demand, release_demand, take_demand};
use crate::locks::leave_lock;
use crate::words::{is_same, word_kept};
use entry_locks::{store_entry, swap_entry};
use foreign_map::Owners;
use frame_words::look_cell;
use partial_state::level_type;
use pte_check::demand;
use xp_board::Port;
use xp_preempt::Preempt;
use xp_words::{Demand, Pause, Place, Refusal, Stop};

/// An entry of a live table of that level, 1 to 4, and the word that it is to have. `index`: below 512, and none of the slots of a table of
/// level 4 that are Xen's (`ROOT_PAGETABLE_FIRST_XEN_SLOT` to `_LAST_`). `keep`: its accessed and dirty bits stay (`MMU_PT_UPDATE_PRESERVE_AD`
/// of `xen.h`).
#[derive(Clone, Copy, Debug, PartialEq, Eq)]
pub struct EntryUpdate {
    pub table: u32,
    pub level: u8,
    pub index: u16,
    pub word: u64,
    pub keep: bool,
}

/// Exchanges an entry of a table under the own entry lock, which is all that is in hand. What the new word asks is taken first, of the domain
/// `owners.frames` at level 1 and of the tables' owner above it; then the word is put there, the lock taken off, and what the old word asked is
/// released. Where both ask the same the word alone is exchanged. Whatever stops it leaves the entry as it is, and the table unlocked. A release
/// that is paused leaves the exchange done; what is left of it stands in the first old word, and a table whose lock held its last type count in
/// the second one. Both are known to name no frame before.
pub fn exchange_entry<P: Port>(
    port: &mut P,
    gate: &mut dyn Preempt,
    update: EntryUpdate,
    owners: Owners,
) -> Result<(), Stop>
    requires frame { update.table < (P.value port.old).post.machine.frames }
    requires low { 1 ≤ update.level }
    requires high { update.level ≤ 4 }
    requires index { update.index < 512 }
    requires slot { is_slot (level_type update.level) update.index ≡ false }
    requires may { MayWork (P.value port.old) }
    requires locked { HoldsTableLock (P.value port.old) update.table update.level owners.tables }
    requires maps { MayMapFor (P.value port.old) owners }
    requires room { known_old First (P.value port.old).holdings ≡ Some 0 }
    requires room_too { known_old Second (P.value port.old).holdings ≡ Some 0 }
    // What it promises are the fields of that record, in specs/Parts.antt.
    ensures { EntryExchanged (P.value port.old) (P.value port.new) update owners (policy gate.old) (policy gate.new) result }
{
    let kind = level_type(update.level);
    let seen = look_cell(port, update.table, update.index);
    let new = word_kept(update.keep, seen, update.word);
    let wanted = demand(kind, update.index, new);
    if let Demand::Bad = wanted {
        leave_lock(port, update.table, update.level);
        return Err(Stop::Refused(Refusal::Reserved {
            frame: update.table,
            index: update.index,
            entry: new,
        }));
    }
    if is_same(wanted, demand(kind, update.index, seen)) {
        let put = put_entry(port, update, seen, new);
        leave_lock(port, update.table, update.level);
        put?;
        return Ok(());
    }
    change_demand(port, gate, update, owners, seen, wanted)
}

// The same, where the new word asks something else than the one that was seen there, and nothing that it may not.
fn change_demand<P: Port>(
    port: &mut P,
    gate: &mut dyn Preempt,
    update: EntryUpdate,
    owners: Owners,
    seen: u64,
    wanted: Demand,
) -> Result<(), Stop>
    requires frame { update.table < (P.value port.old).post.machine.frames }
    requires low { 1 ≤ update.level }
    requires high { update.level ≤ 4 }
    requires index { update.index < 512 }
    requires slot { is_slot (level_type update.level) update.index ≡ false }
    requires may { MayWork (P.value port.old) }
    requires locked { HoldsSeen (P.value port.old) update.table update.level owners.tables update.index seen }
    requires maps { MayMapFor (P.value port.old) owners }
    requires room { known_old First (P.value port.old).holdings ≡ Some 0 }
    requires room_too { known_old Second (P.value port.old).holdings ≡ Some 0 }
    requires wanted { wanted ≡ new_demand update seen }
    requires fits { wanted ≢ Bad }
    requires other { same_demand wanted (old_demand update seen) ≡ false }
    ensures { DemandChanged (P.value port.old) (P.value port.new) update owners seen (policy gate.old) (policy gate.new) result }
{
    let owner = owner_at(update.level, owners);
    match take_demand(port, gate, update.level, owner, wanted) {
        Ok(()) => {}
        Err(stop) => {
            leave_lock(port, update.table, update.level);
            return Err(stop);
        }
    }
    let new = word_kept(update.keep, seen, update.word);
    match put_entry(port, update, seen, new) {
        Ok(old) => {
            leave_lock(port, update.table, update.level);
            release_demand(
                port,
                gate,
                demand(level_type(update.level), update.index, old),
            );
            Ok(())
        }
        Err(stop) => {
            give_demand(port, update.level, owner, wanted);
            leave_lock(port, update.table, update.level);
            Err(stop)
        }
    }
}

// Whose the frames are that entries of a table of that level ask.
fn owner_at(level: u8, owners: Owners) -> u16
    ensures { result ≡ owner_at level owners.tables owners.frames }
{
    if level == 1 {
        owners.frames
    } else {
        owners.tables
    }
}

// Puts the new word there, for which all that it asks is in hand. Answers the old one. Where the accessed and dirty bits are kept, a walk may
// have set them since the entry was seen.
fn put_entry<P: Port>(port: &mut P, update: EntryUpdate, seen: u64, new: u64) -> Result<u64, Stop>
    requires frame { update.table < (P.value port.old).post.machine.frames }
    requires index { update.index < 512 }
    requires may { MayWork (P.value port.old) }
    requires exchanges { MaySwapEntry (P.value port.old).post.machine update.table update.index seen new (P.value port.old).holdings }
    ensures { EntryPut (P.value port.old) (P.value port.new) update.table update.index seen new update.keep result }
{
    if !update.keep {
        return Ok(store_entry(port, update.table, update.index, new));
    }
    match swap_entry(port, update.table, update.index, seen, new) {
        Ok(()) => Ok(seen),
        Err(found) => {
            let place = port.layout().place(Place::Cell {
                frame: update.table,
                index: update.index,
            });
            Err(Stop::Paused(Pause::Lost {
                place,
                expected: seen,
                found,
            }))
        }
    }
}
