ghost use Rattle.std.specs.Prelude.{◌≡◌, Some, Err, IfErr};
ghost use Rattle.xp_words.specs.declared.reply.Refusal.{Refusal};
ghost use Rattle.xp_words.specs.declared.reply.Stop.TheVariants.{Refused};
ghost use Rattle.xp_board.specs.Readings.{domain_of};
ghost use Rattle.step_maker.specs.Holds.{Rests};
ghost use Rattle.step_maker.specs.Answers.{Stops};
ghost use Rattle.table_words.specs.OldWords.{known_old};
ghost use Rattle.table_words.specs.declared.old_words.OldWord.TheVariants.{First};
ghost use Rattle.mmuext_ops.specs.Course.{PerformsBy};
ghost use Rattle.mmuext_ops.specs.Elements.{IsElementStop, KnowsAwaited, LeavesElement, ServesElement, awaited_by, ext_element, ext_request};

use crate::element::{Element, element_of};
use crate::pinning::pin;
use crate::translations::{flush_local, invalidate};
use crate::unpinning::unpin;
use crate::waiting::flush_vcpus;
use desc_pages::set_ldt;
use table_bases::{new_base, new_user_base};
use whole_pages::{clear_page, copy_page};
use xp_board::Port;
use xp_preempt::Preempt;
use xp_words::{ExtOp, Pause, Refusal, Stop};

/// One element of `mmuext_op`, for tables of the caller's own domain. The first old word is known to name no frame. An unpin whose
/// release is paused is done, and the first old word names what is left; so is a new base, where the table that it replaces is released.
/// `awaited`: where the element waited for vCPUs to flush in an earlier turn, the clock value past which it waits (`awaited_of`).
pub fn perform<P: Port>(
    port: &mut P,
    gate: &mut dyn Preempt,
    domain: u16,
    op: ExtOp,
    awaited: Option<u64>,
) -> Result<(), Stop>
    requires rests { Rests (P.value port.old) }
    requires own { domain ≡ domain_of (P.value port.old).post.machine (P.value port.old).post.vcpu }
    requires room { known_old First (P.value port.old).holdings ≡ Some 0 }
    requires known { KnowsAwaited (P.value port.old) awaited }
    // The steps serve what the element asks for, and show why it stops.
    ensures serves { ServesElement (P.value port.old) (P.value port.new) domain (ext_element op) awaited result }
    ensures stops { IfErr result (λ e. Stops (P.value port.old) (P.value port.new) (ext_request (P.value port.old).post.machine (P.value port.old).post.vcpu domain (ext_element op) awaited result) e) }
    ensures kinds { IfErr result (IsElementStop (ext_element op)) }
    // What its numbers alone refuse is refused.
    ensures numbers { (x : Refusal) → (ext_request (P.value port.old).post.machine (P.value port.old).post.vcpu domain (ext_element op) awaited result).by_numbers ≡ Some x → result ≡ Err (Refused x) }
    ensures hand { LeavesElement (P.value port.old) (P.value port.new) (ext_element op) result }
    ensures rests { Rests (P.value port.new) }
    // A wait for vCPUs that is paused goes on past a clock value that the vCPU has found.
    ensures awaits { KnowsAwaited (P.value port.new) (awaited_by (ext_element op) result) }
    // It makes these calls, and its gate gave these answers.
    ensures course { PerformsBy (P.value port.old) (P.value port.new) domain (ext_element op) awaited (policy gate.old) (policy gate.new) result }
{
    match element_of(op) {
        Element::Pin { frame, level } => pin(port, gate, domain, frame, level),
        Element::Unpin { frame } => unpin(port, gate, domain, frame),
        Element::NewBase { frame } => new_base(port, gate, frame),
        Element::NewUserBase { frame } => new_user_base(port, gate, frame),
        Element::FlushLocal => flush_local(port),
        Element::Invalidate { va } => {
            invalidate(port, va);
            Ok(())
        }
        Element::FlushVcpus { mask } => flush_vcpus(port, mask, awaited),
        Element::SetLdt { address, entries } => set_ldt(port, address, entries),
        Element::ClearPage { frame } => clear_page(port, domain, frame),
        Element::CopyPage { to, from } => copy_page(port, domain, to, from),
        Element::Unknown => Err(Stop::Refused(Refusal::BadCommand)),
    }
}

/// The clock value past which an element that was paused goes on to wait in a later turn.
pub fn awaited_of(op: ExtOp, answer: &Result<(), Stop>) -> Option<u64>
    ensures { result ≡ awaited_by (ext_element op) answer.now }
{
    match (element_of(op), answer) {
        (Element::FlushVcpus { .. }, Err(Stop::Paused(Pause::Flush { stamp, .. }))) => Some(*stamp),
        _ => None,
    }
}
