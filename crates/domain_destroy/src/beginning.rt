//! A destruction begins.
ghost use Rattle.std.specs.Prelude.{◌≡◌, ◌<◌, IfOk, IfErr};
ghost use Rattle.xp_board.specs.Readings.{has_now};
ghost use Rattle.step_maker.specs.Holds.{Rests, Same};
ghost use Rattle.step_maker.specs.Visits.{Does};
ghost use Rattle.domain_destroy.specs.Asking.{IsDestroyStop, ServesDestroy, StopsDestroyer};
ghost use Rattle.domain_destroy.specs.Coming.{FoundStopped};
ghost use Rattle.domain_destroy.specs.Course.{BeginsBy};

use flush_words::look_privileges;
use life_words::doom;
use step_maker::own_domain;
use xp_board::Port;
use xp_words::{Refusal, Stop};

/// The own vCPU destroys the domain from now on, where that is one of the machine's over which the own domain has privilege, and alive. There is no
/// privilege over the own domain.
pub(crate) fn begin<P: Port>(port: &mut P, domain: u64) -> Result<(), Stop>
    requires rests { Rests (P.value port.old) }
    ensures hand { Same (P.value port.old) (P.value port.new) }
    ensures serves { ServesDestroy (P.value port.old) (P.value port.new) domain result }
    ensures stops { IfErr result (λ e. StopsDestroyer (P.value port.old) (P.value port.new) domain e) }
    ensures kinds { IfErr result IsDestroyStop }
    ensures by { Does (P.value port.old) (P.value port.new) (λ vs. BeginsBy (P.value port.old).post domain result vs) }
    // The vCPU knows that it destroys the domain.
    ensures come { IfOk result (λ _. FoundStopped (P.value port.new).post.machine (P.value port.new).post.vcpu domain 0 (P.value port.new).holdings) }
{
    if domain >= u64::from(port.layout().domains()) {
        return Err(Stop::Refused(Refusal::NoDomain));
    }
    let domain = domain as u16;
    let caller = own_domain(port);
    if domain == caller || !has_privilege(look_privileges(port, caller), domain) {
        return Err(Stop::Refused(Refusal::NoPrivilege { caller, domain }));
    }
    match doom(port, domain) {
        Ok(()) => Ok(()),
        Err(found) => Err(Stop::Refused(Refusal::Dying { domain, found })),
    }
}

// Whether a domain with that word has privilege over the other one.
fn has_privilege(word: u64, over: u16) -> bool
    requires { over < 16 }
    ensures { result ≡ has_now over word }
{
    word >> over & 1 == 1
}
