//! Pins.
ghost use Rattle.std.specs.Prelude.{◌≡◌, ◌<◌, ◌≤◌, Some, true, false};
ghost use Rattle.xp_board.specs.Readings.{domain_of};
ghost use Rattle.step_maker.specs.Holds.{MayWork, Rests};
ghost use Rattle.table_words.specs.OldWords.{known_old};
ghost use Rattle.table_words.specs.declared.old_words.OldWord.TheVariants.{First};
ghost use Rattle.mmuext_ops.specs.Holding.{GivesUp, HoldsTable, MeetsElement, PinsLive};
ghost use Rattle.mmuext_ops.specs.declared.element.Element.TheVariants.{Pin};

use frame_words::{get_ref, put_ref};
use kind_words::{look_kind, lost, read_kind};
use level_release::park;
use level_validate::acquire;
use partial_state::level_type;
use step_maker::own_domain;
use table_words::set_pin;
use xp_board::Port;
use xp_preempt::Preempt;
use xp_words::{Refusal, Stop};

/// Pins a frame of the own domain as a table of that level, 1 to 4: it is acquired, and its type stays until it is unpinned. A
/// frame that is pinned with that type already is refused.
pub fn pin<P: Port>(
    port: &mut P,
    gate: &mut dyn Preempt,
    domain: u16,
    f: u64,
    level: u8,
) -> Result<(), Stop>
    requires rests { Rests (P.value port.old) }
    requires own { domain ≡ domain_of (P.value port.old).post.machine (P.value port.old).post.vcpu }
    requires low { 1 ≤ level }
    requires high { level ≤ 4 }
    requires room { known_old First (P.value port.old).holdings ≡ Some 0 }
    ensures { MeetsElement (P.value port.old) (P.value port.new) domain (Pin f level) None (policy gate.old) (policy gate.new) result }
{
    let frame = get_ref(port, f, domain)?;
    let found = look_kind(port, frame);
    put_ref(port, frame);
    let kind = read_kind(found);
    if kind.pinned && kind.kind == level_type(level) {
        return Err(Stop::Refused(Refusal::AlreadyPinned { found }));
    }
    let frame = acquire(port, gate, f, domain, level)?;
    pin_live(port, frame, level)
}

// The frame is live as a table of that level, and the only typed reference in hand is one to it: it goes into the pin, or is given
// back.
fn pin_live<P: Port>(port: &mut P, frame: u32, level: u8) -> Result<(), Stop>
    requires frame { frame < (P.value port.old).post.machine.frames }
    requires may { MayWork (P.value port.old) }
    requires low { 1 ≤ level }
    requires high { level ≤ 4 }
    requires holds { HoldsTable (P.value port.old) frame level }
    requires room { known_old First (P.value port.old).holdings ≡ Some 0 }
    ensures { PinsLive (P.value port.old) (P.value port.new) frame level result }
{
    let found = look_kind(port, frame);
    let kind = read_kind(found);
    if kind.pinned {
        give_up(port, frame, level, false);
        return Err(Stop::Refused(Refusal::AlreadyPinned { found }));
    }
    match set_pin(port, frame, kind) {
        Ok(()) => Ok(()),
        Err(found_now) => {
            if read_kind(found_now).pinned {
                give_up(port, frame, level, false);
                Err(Stop::Refused(Refusal::AlreadyPinned { found: found_now }))
            } else {
                give_up(port, frame, level, true);
                Err(lost(port, frame, found, found_now))
            }
        }
    }
}

// A typed reference to a live table is given back. Where it was the last, the table is left partial with all its entries recorded: its
// own mark keeps the reference, or the first old word names it.
fn give_up<P: Port>(port: &mut P, frame: u32, level: u8, kept: bool)
    requires frame { frame < (P.value port.old).post.machine.frames }
    requires may { MayWork (P.value port.old) }
    requires low { 1 ≤ level }
    requires high { level ≤ 4 }
    requires holds { HoldsTable (P.value port.old) frame level }
    requires room { known_old First (P.value port.old).holdings ≡ Some 0 }
    ensures { GivesUp (P.value port.old) (P.value port.new) frame level kept }
{
    let owner = own_domain(port);
    park(port, frame, level, owner, kept);
}
