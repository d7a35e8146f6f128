//! Frames that are taken as ordinary memory: the type that an entry of level 1 asks which is writable, and a store into a frame.
ghost use Rattle.std.specs.Prelude.{◌≡◌, ◌<◌, [], None, length, IfOk, IfErr};
ghost use Rattle.xp_board.specs.Hands.{typed_to, work_on};
ghost use Rattle.xp_board.specs.Readings.{domain_of};
ghost use Rattle.step_maker.specs.Holds.{MayWork};
ghost use Rattle.step_maker.specs.Moves.{Came};
ghost use Rattle.step_maker.specs.Answers.{Stops};
ghost use Rattle.frame_types.specs.Taking.{LentBy};
ghost use Rattle.kept_marks.specs.Marks.{IsForeign};
ghost use Rattle.table_words.specs.OldWords.{known_old};
ghost use Rattle.table_words.specs.declared.old_words.OldWord.TheVariants.{First};
ghost use Rattle.flush_waits.specs.Waiting.{IsWait};
ghost use Rattle.frame_types.specs.Plain.{TwinMemory};
ghost use Rattle.writable_pages.specs.Pages.{GotPage, IsPageStop, IsPageWaiting, LeavesGot, LeavesPage, LeavesWaitingPage, LeftPage, ServesLeftPage, ServesPage, TookPage, of_page};

use frame_types::{Taken, leave_dead, leave_shared, take_type};
use frame_words::{get_ref, put_ref};
use kept_marks::leave_kept;
use kind_words::waiting_kind;
use xp_board::Port;
use xp_words::{PageType, Stop};

/// Takes a frame of the domain `owner` as writable, under the untyped reference in hand, which becomes a typed one. A frame that was of
/// another type, or is marked, is flushed first. A refusal or a pause gives the reference back, or leaves it in the frame's `kept` mark; or
/// in the first old word, which is known to name no frame, where the frame is another domain's, which is dying.
pub fn take_page<P: Port>(port: &mut P, frame: u32, owner: u16) -> Result<(), Stop>
    requires frame { frame < (P.value port.old).post.machine.frames }
    requires may { MayWork (P.value port.old) }
    requires lent { LentBy frame owner (P.value port.old).holdings }
    requires real { owner < length (P.value port.old).post.machine.page_limit }
    requires apart { work_on frame (P.value port.old).holdings.works ≡ None }
    requires untyped { typed_to frame (P.value port.old).holdings.typed ≡ 0 }
    requires looked { (P.value port.old).holdings.looking ≡ [] }
    requires room { IsForeign (P.value port.old) owner → known_old First (P.value port.old).holdings ≡ Some 0 }
    ensures came { Came (P.value port.old) (P.value port.new) }
    ensures serves { ServesPage (P.value port.old) (P.value port.new) frame owner result }
    ensures stops { IfErr result (λ e. Stops (P.value port.old) (P.value port.new) (of_page (P.value port.old) frame owner) e) }
    ensures kinds { IfErr result IsPageStop }
    ensures hand { LeavesPage (P.value port.old) (P.value port.new) frame owner result }
    ensures course { TookPage (P.value port.old) frame owner (P.value port.new) result }
    // An own frame on a board that tells all words: by the words before, and which words are left.
    ensures plain { owner ≡ domain_of (P.value port.old).post.machine (P.value port.old).post.vcpu → TwinMemory (P.value port.old) (P.value port.new) frame result }
{
    match take_type(port, frame, owner, PageType::Writable) {
        Ok(Taken::Counted) => Ok(()),
        Ok(Taken::InWork { .. }) => unreachable!("ordinary memory has no entries to read"),
        Ok(Taken::Waiting { own, stamp, stop }) => {
            leave_page(port, frame, owner, own, stamp, stop);
            Err(stop)
        }
        Err(stop) => {
            put_ref(port, frame);
            Err(stop)
        }
    }
}

/// The same with a reference of its own.
pub fn get_page<P: Port>(port: &mut P, f: u64, owner: u16) -> Result<u32, Stop>
    requires may { MayWork (P.value port.old) }
    requires real { owner < length (P.value port.old).post.machine.page_limit }
    requires works { (P.value port.old).holdings.works ≡ [] }
    requires typed { (P.value port.old).holdings.typed ≡ [] }
    requires looked { (P.value port.old).holdings.looking ≡ [] }
    requires room { IsForeign (P.value port.old) owner → known_old First (P.value port.old).holdings ≡ Some 0 }
    ensures came { Came (P.value port.old) (P.value port.new) }
    ensures frame { IfOk result (λ g. (g ≡ f) × (g < (P.value port.old).post.machine.frames)) }
    ensures serves { ServesPage (P.value port.old) (P.value port.new) f owner result }
    ensures stops { IfErr result (λ e. Stops (P.value port.old) (P.value port.new) (of_page (P.value port.old) f owner) e) }
    ensures hand { LeavesGot (P.value port.old) (P.value port.new) f owner result }
    ensures course { GotPage (P.value port.old) f owner (P.value port.new) result }
{
    let frame = get_ref(port, f, owner)?;
    take_page(port, frame, owner)?;
    Ok(frame)
}

// Leaves a frame in the own works that waits for a flush which is not to be had. `own`: its type count is in hand; a refusal leaves
// the frame dead with its mark and a new stamp, and a pause puts that into the `kept` mark. Else it is left partial as it was found.
fn leave_page<P: Port>(port: &mut P, frame: u32, owner: u16, own: bool, stamp: u64, stop: Stop)
    requires frame { frame < (P.value port.old).post.machine.frames }
    requires may { MayWork (P.value port.old) }
    requires waits { IsPageWaiting (P.value port.old) frame owner own stamp }
    requires real { owner < length (P.value port.old).post.machine.page_limit }
    requires looked { (P.value port.old).holdings.looking ≡ [] }
    requires room { IsForeign (P.value port.old) owner → known_old First (P.value port.old).holdings ≡ Some 0 }
    requires wait { IsWait stop }
    ensures came { Came (P.value port.old) (P.value port.new) }
    ensures serves { ServesLeftPage (P.value port.old) (P.value port.new) frame owner stop }
    ensures hand { LeavesWaitingPage (P.value port.old) (P.value port.new) frame owner own stamp stop }
    ensures course { LeftPage (P.value port.old) (P.value port.new) frame owner stamp own stop }
{
    if !own {
        leave_shared(port, frame, PageType::Writable, stamp);
        return;
    }
    match stop {
        Stop::Refused(_) => leave_dead(port, frame, PageType::Writable),
        Stop::Paused(_) => {
            let kind = waiting_kind(PageType::Writable, true, stamp);
            leave_kept(port, frame, kind, owner);
        }
    }
}
