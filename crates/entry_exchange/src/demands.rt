//! What an entry asks, taken and given back.

ghost use Rattle.std.specs.Prelude.{◌≡◌, ◌-◌, ◌<◌, ◌≤◌, Some, true, length};
ghost use Rattle.step_maker.specs.Holds.{MayWork};
ghost use Rattle.level_validate.specs.Tables.{IsIdle};
ghost use Rattle.table_words.specs.OldWords.{known_old};
ghost use Rattle.table_words.specs.declared.old_words.OldWord.TheVariants.{First};
ghost use Rattle.entry_exchange.specs.Parts.{DemandGiven, DemandReleased, DemandTaken, HoldsFreed, HoldsTaken, IsInside, IsOfLevel};

use frame_types::drop_plain;
use frame_words::{get_ref, put_ref};
use level_release::{park, release};
use level_validate::acquire;
use writable_pages::get_page;
use xp_board::Port;
use xp_preempt::Preempt;
use xp_words::{Demand, PageType, Stop};

// Takes what an entry of a table of that level asks, of that owner.
pub(crate) fn take_demand<P: Port>(
    port: &mut P,
    gate: &mut dyn Preempt,
    level: u8,
    owner: u16,
    wanted: Demand,
) -> Result<(), Stop>
    requires may { MayWork (P.value port.old) }
    requires low { 1 ≤ level }
    requires high { level ≤ 4 }
    requires real { owner < length (P.value port.old).post.machine.page_limit }
    requires idle { IsIdle (P.value port.old) }
    requires asks { IsOfLevel level wanted }
    requires room { known_old First (P.value port.old).holdings ≡ Some 0 }
    ensures { DemandTaken (P.value port.old) (P.value port.new) owner level wanted (policy gate.old) (policy gate.new) result }
{
    match wanted {
        Demand::Nothing | Demand::Bad => {}
        Demand::Read { frame } => {
            get_ref(port, frame, owner)?;
        }
        Demand::Typed { frame, .. } if level == 1 => {
            get_page(port, frame, owner)?;
        }
        Demand::Typed { frame, .. } => {
            acquire(port, gate, frame, owner, level - 1)?;
        }
    }
    Ok(())
}

// Gives back what was taken so for an entry that is not put there.
pub(crate) fn give_demand<P: Port>(port: &mut P, level: u8, owner: u16, wanted: Demand)
    requires may { MayWork (P.value port.old) }
    requires low { 1 ≤ level }
    requires high { level ≤ 4 }
    requires real { owner < length (P.value port.old).post.machine.page_limit }
    requires asks { IsOfLevel level wanted }
    requires inside { IsInside (P.value port.old).post.machine wanted }
    requires taken { HoldsTaken (P.value port.old) wanted owner }
    requires room { known_old First (P.value port.old).holdings ≡ Some 0 }
    ensures { DemandGiven (P.value port.old) (P.value port.new) owner level wanted }
{
    match wanted {
        Demand::Nothing | Demand::Bad => {}
        Demand::Read { frame } => put_ref(port, frame as u32),
        Demand::Typed { frame, .. } if level == 1 => {
            drop_plain(port, frame as u32, PageType::Writable);
        }
        // Where it was the last type count, the table is left partial under its own mark.
        Demand::Typed { frame, .. } => park(port, frame as u32, level - 1, owner, true),
    }
}

// Releases what the old word of an entry asked. Where the gate pauses that, the first old word names what is left.
pub(crate) fn release_demand<P: Port>(port: &mut P, gate: &mut dyn Preempt, old: Demand)
    requires may { MayWork (P.value port.old) }
    requires inside { IsInside (P.value port.old).post.machine old }
    requires freed { HoldsFreed (P.value port.old) old }
    requires room { known_old First (P.value port.old).holdings ≡ Some 0 }
    ensures { DemandReleased (P.value port.old) (P.value port.new) old (policy gate.old) (policy gate.new) }
{
    match old {
        Demand::Nothing | Demand::Bad => {}
        Demand::Read { frame } => put_ref(port, frame as u32),
        Demand::Typed { frame, kind } => match release(port, gate, frame as u32, kind) {
            Ok(()) | Err(_) => {}
        },
    }
}
