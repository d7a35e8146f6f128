//! Translations that are dropped.
ghost use Rattle.std.specs.Prelude.{◌≡◌, [], ◌∷◌, None, Some, IfErr, MatchResult};
ghost use Rattle.xp_words.specs.declared.reply.Stop.TheVariants.{Refused};
ghost use Rattle.xp_board.specs.declared.step.Mark.TheVariants.{Turn};
ghost use Rattle.xp_board.specs.Marks.{after_mark};
ghost use Rattle.step_maker.specs.Holds.{FlushedHolds, Holds, Same};
ghost use Rattle.step_maker.specs.Moves.{Came};
ghost use Rattle.step_maker.specs.Answers.{BeginsTurn, Forgets, Serves, Stops, only_if};
ghost use Rattle.step_maker.specs.Asked.{Request};
ghost use Rattle.step_maker.specs.Visits.{Does};
ghost use Rattle.flush_words.specs.Flushing.{FlushedBy};
ghost use Rattle.tlb_walks.specs.Addresses.{is_canonical, page_of};
ghost use Rattle.tlb_walks.specs.Dropping.{Acks, Uncached, Invalidates, left_cached, of_flush};

use crate::addresses::{canonical, page_at};
use flush_words::{begin_turn, flush_own, look_flushed};
use step_maker::make;
use xp_board::{Act, Mark, Port, StepKind};
use xp_words::{Place, Refusal};

/// Answers an ask of another vCPU for a flush, as a processor does on the interrupt by which Xen asks: where the clock value
/// up to which this vCPU was asked is at least the one to which it is flushed, all its translations are dropped. Where the
/// clock is at its last value the ask stays unanswered. A turn of the vCPU begins with it, with no walk in flight.
pub fn ack<P: Port>(port: &mut P)
    requires landed { (P.value port.old).holdings.walk ≡ None }
    ensures came { Came (P.value port.old) (P.value port.new) }
    // A guest sees of the steps that a turn begins, and they fit each request.
    ensures serves { (r : Request) → Serves (P.value port.old) (P.value port.new) r (BeginsTurn ∷ []) }
    ensures course { Acks (P.value port.old) (P.value port.new) }
    ensures hand { FlushedHolds (P.value port.old) (P.value port.new) (after_mark (P.value port.old).post.machine (Some Turn) (P.value port.old).holdings) }
{
    let vcpu = port.vcpu();
    let asked = begin_turn(port);
    let flushed = look_flushed(port, vcpu);
    if asked < flushed {
        return;
    }
    match flush_own(port) {
        Ok(()) => {}
        Err(_) => {}
    }
}

/// Drops all translations of the vCPU, as `MMUEXT_TLB_FLUSH_LOCAL` of Xen's interface does. Refused where the clock of flushes
/// is at its last value; nothing has changed then.
pub fn flush_local<P: Port>(port: &mut P) -> Result<(), Refusal>
    requires landed { (P.value port.old).holdings.walk ≡ None }
    ensures came { Came (P.value port.old) (P.value port.new) }
    ensures serves { Serves (P.value port.old) (P.value port.new) of_flush [] }
    ensures stops { IfErr result (λ e. Stops (P.value port.old) (P.value port.new) of_flush (Refused e)) }
    ensures course { Does (P.value port.old) (P.value port.new) (FlushedBy (P.value port.old).post.vcpu result) }
    ensures hand { MatchResult result (λ _. Uncached (P.value port.old) (P.value port.new)) (λ _. Same (P.value port.old) (P.value port.new)) }
{
    flush_own(port)
}

/// Drops the vCPU's translations of the page of the address `va`, the user's and the kernel's, as Intel's instruction `invlpg`
/// and `MMUEXT_INVLPG_LOCAL` of Xen's interface do. An address that is not canonical drops none.
pub fn invlpg<P: Port>(port: &mut P, va: u64)
    requires landed { (P.value port.old).holdings.walk ≡ None }
    ensures came { Came (P.value port.old) (P.value port.new) }
    ensures serves { (r : Request) → Serves (P.value port.old) (P.value port.new) r (only_if (is_canonical va) (Forgets (page_of va))) }
    ensures course { Does (P.value port.old) (P.value port.new) (Invalidates va) }
    ensures hand { Holds (P.value port.old) (P.value port.new) (record (P.value port.old).holdings { cache = left_cached va (P.value port.old).holdings.cache }) }
{
    if !canonical(va) {
        return;
    }
    let page = page_at(va);
    make(
        port,
        Place::Clock,
        Act::Load,
        StepKind::Look,
        Some(Mark::Forget { page }),
    );
}
