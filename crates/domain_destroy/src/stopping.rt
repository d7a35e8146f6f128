//! The vCPUs of a domain that is destroyed are found stopped.
ghost use Rattle.std.specs.Prelude.{◌≡◌, ◌==◌, ◌+◌, ◌<◌, ◌≤◌, [], length, IfOk, IfErr, MatchResult};
ghost use Rattle.xp_board.specs.Readings.{domain_of};
ghost use Rattle.step_maker.specs.Holds.{Same};
ghost use Rattle.domain_destroy.specs.Asking.{IsDestroyStop, ServesDestroy, StopsDestroyer};
ghost use Rattle.domain_destroy.specs.Coming.{FoundStopped};
ghost use Rattle.domain_destroy.specs.Course.{Advances, GoesOn};
ghost use Rattle.domain_destroy.specs.declared.place.DestroyAt.TheVariants.{Stops};

use flush_words::look_run_of;
use xp_board::Port;
use xp_words::{Pause, Stop};

// A run word.
const STOPPED: u64 = 1;

/// Looks at the run word of each vCPU of the domain from `at` on, which then is the first that was not found stopped.
pub(crate) fn find_stopped<P: Port>(port: &mut P, domain: u16, at: &mut u32) -> Result<(), Stop>
    requires come { FoundStopped (P.value port.old).post.machine (P.value port.old).post.vcpu domain at.old (P.value port.old).holdings }
    ensures hand { Same (P.value port.old) (P.value port.new) }
    ensures come { FoundStopped (P.value port.new).post.machine (P.value port.new).post.vcpu domain at.new (P.value port.new).holdings }
    ensures all { IfOk result (λ _. length (P.value port.new).post.machine.vcpu_domain ≤ at.new) }
    ensures serves { ServesDestroy (P.value port.old) (P.value port.new) domain result }
    ensures kinds { IfErr result IsDestroyStop }
    ensures stops { IfErr result (λ e. StopsDestroyer (P.value port.old) (P.value port.new) domain e) }
    ensures course { GoesOn domain (P.value port.old) (Stops at.old) (P.value port.new) (Stops at.new) [] [] result }
{
    while *at < port.layout().vcpus() {
        find_one(port, domain, *at)?;
        *at += 1;
    }
    Ok(())
}

// One vCPU, if it is the domain's.
fn find_one<P: Port>(port: &mut P, domain: u16, vcpu: u32) -> Result<(), Stop>
    requires vcpu { vcpu < length (P.value port.old).post.machine.vcpu_domain }
    requires come { FoundStopped (P.value port.old).post.machine (P.value port.old).post.vcpu domain vcpu (P.value port.old).holdings }
    ensures hand { Same (P.value port.old) (P.value port.new) }
    ensures stays { FoundStopped (P.value port.new).post.machine (P.value port.new).post.vcpu domain vcpu (P.value port.new).holdings }
    ensures come { IfOk result (λ _. FoundStopped (P.value port.new).post.machine (P.value port.new).post.vcpu domain (vcpu + 1) (P.value port.new).holdings) }
    ensures serves { ServesDestroy (P.value port.old) (P.value port.new) domain result }
    ensures kinds { IfErr result IsDestroyStop }
    ensures stops { IfErr result (λ e. StopsDestroyer (P.value port.old) (P.value port.new) domain e) }
    ensures course { MatchResult result (λ _. Advances domain (P.value port.old) (Stops vcpu) (P.value port.new) (Stops (vcpu + 1)) [] [] result) (λ _. Advances domain (P.value port.old) (Stops vcpu) (P.value port.new) (Stops vcpu) [] [] result) }
{
    if !is_of(port, vcpu, domain) {
        return Ok(());
    }
    let found = look_run_of(port, vcpu);
    if found == STOPPED {
        Ok(())
    } else {
        Err(Stop::Paused(Pause::Alive { vcpu, found }))
    }
}

// Whether the vCPU is the domain's.
pub(crate) fn is_of<P: Port>(port: &P, vcpu: u32, domain: u16) -> bool
    requires { vcpu < length (P.value port.now).post.machine.vcpu_domain }
    ensures { result ≡ (domain_of (P.value port.now).post.machine vcpu == domain) }
{
    port.layout().vcpu_domain.as_slice()[vcpu as usize] == domain
}
