//! Frames of the own domain that are taken as descriptor pages.
ghost use Rattle.std.specs.Prelude.{◌≡◌, ◌<◌, ℕ, []};
ghost use Rattle.xp_board.specs.Told.{PortValue};
ghost use Rattle.xp_board.specs.Readings.{domain_of};
ghost use Rattle.step_maker.specs.Holds.{MayWork};
ghost use Rattle.flush_waits.specs.Waiting.{IsWait};
ghost use Rattle.frame_types.specs.Taking.{LentBy};
ghost use Rattle.desc_pages.specs.Pages.{GetsDesc, IsDescAside, IsDescWaiting, LeavesWaiting, TakenFrom, TakesDesc, Validates};

use crate::fixing::{Unfixed, fix_words};
use frame_types::{Taken, leave_dead, take_type};
use frame_words::{get_ref, put_ref};
use kind_words::{dead_kind, leave, live_kind, waiting_kind};
use step_maker::look_clock;
use xp_board::Port;
use xp_words::{PageType, Refusal, Stop};

/// Takes a frame of the own domain, `owner`, as a descriptor page, with a reference of its own: all its words are replaced by their fixed
/// forms, in order. Refused where a word has none: the words before it stay fixed, and the frame is left dead. A pause leaves its type count
/// in the frame's `kept` mark. The gate is not asked.
pub fn get_desc<P: Port>(port: &mut P, f: u64, owner: u16) -> Result<u32, Stop>
    requires may { MayWork (P.value port.old) }
    requires own { owner ≡ domain_of (P.value port.old).post.machine (P.value port.old).post.vcpu }
    requires works { (P.value port.old).holdings.works ≡ [] }
    requires locks { (P.value port.old).holdings.locks ≡ [] }
    requires claimed { (P.value port.old).holdings.claimed ≡ [] }
    requires looked { (P.value port.old).holdings.looking ≡ [] }
    requires aside { IsDescAside (P.value port.old) f }
    ensures { GetsDesc (P.value port.old) (P.value port.new) f owner result }
{
    let frame = get_ref(port, f, owner)?;
    take_desc(port, frame, owner)?;
    Ok(frame)
}

/// The same under the untyped reference in hand, which becomes a typed one. A refusal or a pause gives it back.
pub fn take_desc<P: Port>(port: &mut P, frame: u32, owner: u16) -> Result<(), Stop>
    requires frame { frame < (P.value port.old).post.machine.frames }
    requires may { MayWork (P.value port.old) }
    requires own { owner ≡ domain_of (P.value port.old).post.machine (P.value port.old).post.vcpu }
    requires lent { LentBy frame owner (P.value port.old).holdings }
    requires works { (P.value port.old).holdings.works ≡ [] }
    requires locks { (P.value port.old).holdings.locks ≡ [] }
    requires claimed { (P.value port.old).holdings.claimed ≡ [] }
    requires looked { (P.value port.old).holdings.looking ≡ [] }
    requires aside { IsDescAside (P.value port.old) frame }
    ensures { TakesDesc (P.value port.old) (P.value port.new) frame owner result }
{
    match take_type(port, frame, owner, PageType::Desc) {
        Ok(Taken::Counted) => Ok(()),
        Ok(Taken::InWork { .. }) => validate(port, frame),
        Ok(Taken::Waiting { stamp, stop, .. }) => {
            leave_waiting(port, frame, owner, stamp, stop);
            Err(stop)
        }
        Err(stop) => {
            put_ref(port, frame);
            Err(stop)
        }
    }
}

// A page that has come into the own works, past its flush: all its words are fixed, and it is live; or one has no fixed form, and it is left
// dead with a clock value that was found then.
fn validate<P: Port>(port: &mut P, frame: u32) -> Result<(), Stop>
    requires frame { frame < (P.value port.old).post.machine.frames }
    requires may { MayWork (P.value port.old) }
    requires taken { (b : PortValue) × (owner : ℕ) × TakenFrom b (P.value port.old) frame owner }
    ensures { (b : PortValue) (owner : ℕ) → TakenFrom b (P.value port.old) frame owner → Validates b (P.value port.old) (P.value port.new) frame owner result }
{
    match fix_words(port, frame) {
        Ok(()) => {
            leave(port, frame, live_kind(PageType::Desc, 1));
            Ok(())
        }
        Err(Unfixed { index, word }) => {
            let clock = look_clock(port);
            leave(port, frame, dead_kind(PageType::Desc, false, clock));
            put_ref(port, frame);
            Err(Stop::Refused(Refusal::BadDescriptor { frame, index, word }))
        }
    }
}

// One that waits for a flush which is not to be had, with its type count in hand: a refusal leaves it dead with its mark and a new stamp; a
// pause puts the type count into its `kept` mark. Its domain is the own one, and lives.
fn leave_waiting<P: Port>(port: &mut P, frame: u32, owner: u16, stamp: u64, stop: Stop)
    requires frame { frame < (P.value port.old).post.machine.frames }
    requires may { MayWork (P.value port.old) }
    requires own { owner ≡ domain_of (P.value port.old).post.machine (P.value port.old).post.vcpu }
    requires waits { IsDescWaiting (P.value port.old) frame owner stamp }
    requires looked { (P.value port.old).holdings.looking ≡ [] }
    requires wait { IsWait stop }
    ensures { LeavesWaiting (P.value port.old) (P.value port.new) frame owner stamp stop }
{
    match stop {
        Stop::Refused(_) => leave_dead(port, frame, PageType::Desc),
        Stop::Paused(_) => {
            let kind = waiting_kind(PageType::Desc, true, stamp);
            leave(port, frame, kind);
        }
    }
}
