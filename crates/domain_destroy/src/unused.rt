//! No frame of a domain that is destroyed is a page table or descriptor page in use.
ghost use Rattle.std.specs.Prelude.{ℕ, ◌≡◌, ◌<◌, ◌≤◌, ◌&&◌, ◌||◌, [], length, IfOk, IfErr, MatchResult};
ghost use Rattle.xp_words.specs.PageTypes.{is_table};
ghost use Rattle.xp_words.specs.declared.kind.PageType.TheVariants.{Desc};
ghost use Rattle.xp_board.specs.Readings.{is_live, is_type};
ghost use Rattle.step_maker.specs.Holds.{Same};
ghost use Rattle.step_maker.specs.Visits.{Does};
ghost use Rattle.domain_destroy.specs.Asking.{IsDestroyStop, ServesDestroy, StopsDestroyer};
ghost use Rattle.domain_destroy.specs.Coming.{FoundCleared, FoundUnused, IsUnused};
ghost use Rattle.domain_destroy.specs.Course.{Advances, ChecksFrame};
ghost use Rattle.domain_destroy.specs.declared.place.DestroyAt.TheVariants.{Checks, Lists};

use crate::marks::owner_in;
use frame_words::look_refs;
use kind_words::{look_kind, read_kind};
use xp_board::Port;
use xp_words::{KindWord, PageType, Pause, Stop};

/// One pass over all frames finds none of the domain in use.
pub(crate) fn find_unused<P: Port>(port: &mut P, domain: u16) -> Result<(), Stop>
    requires come { (since : ℕ) × FoundCleared (P.value port.old).post.machine (P.value port.old).post.vcpu domain (P.value port.old).post.machine.frames since (P.value port.old).holdings }
    ensures hand { Same (P.value port.old) (P.value port.new) }
    ensures come { IfOk result (λ _. (since : ℕ) → FoundCleared (P.value port.old).post.machine (P.value port.old).post.vcpu domain (P.value port.old).post.machine.frames since (P.value port.old).holdings → FoundUnused (P.value port.new).post.machine (P.value port.new).post.vcpu domain since (P.value port.new).holdings) }
    ensures serves { ServesDestroy (P.value port.old) (P.value port.new) domain result }
    ensures kinds { IfErr result IsDestroyStop }
    ensures stops { IfErr result (λ e. StopsDestroyer (P.value port.old) (P.value port.new) domain e) }
    ensures course { MatchResult result (λ _. Advances domain (P.value port.old) Checks (P.value port.new) (Lists 0 0) [] [] result) (λ _. Advances domain (P.value port.old) Checks (P.value port.new) Checks [] [] result) }
{
    for frame in 0..port.layout().frames {
        check_one(port, domain, frame)?;
    }
    Ok(())
}

// One frame.
fn check_one<P: Port>(port: &mut P, domain: u16, frame: u32) -> Result<(), Stop>
    requires frame { frame < (P.value port.old).post.machine.frames }
    ensures hand { Same (P.value port.old) (P.value port.new) }
    ensures unused { IfOk result (λ _. (since : ℕ) → since ≤ length (P.value port.old).holdings.steps → IsUnused (P.value port.new).post.machine domain since frame (P.value port.new).holdings) }
    ensures serves { ServesDestroy (P.value port.old) (P.value port.new) domain result }
    ensures kinds { IfErr result IsDestroyStop }
    ensures stops { IfErr result (λ e. StopsDestroyer (P.value port.old) (P.value port.new) domain e) }
    ensures by { Does (P.value port.old) (P.value port.new) (λ vs. ChecksFrame domain frame result vs) }
{
    if owner_in(look_refs(port, frame)) != Some(domain) {
        return Ok(());
    }
    let found = look_kind(port, frame);
    if is_in_use(read_kind(found)) {
        return Err(Stop::Paused(Pause::Busy { frame, found }));
    }
    Ok(())
}

// Whether it is a page table or descriptor page that lives.
fn is_in_use(kind: KindWord) -> bool
    ensures { result ≡ (is_live kind && (is_table kind.kind || is_type kind.kind Desc)) }
{
    kind.validated && (kind.kind.is_table() || kind.kind == PageType::Desc)
}
