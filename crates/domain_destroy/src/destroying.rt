//! The destruction of a domain.
ghost use Rattle.std.specs.Prelude.{◌≡◌, ◌+◌, ◌≤◌, vec_len, vec_capacity};
ghost use Rattle.step_maker.specs.Holds.{Rests};
ghost use Rattle.level_release.specs.Asking.{is_due_answer};
ghost use Rattle.domain_destroy.specs.Coming.{HasComeTo, seen_to};
ghost use Rattle.domain_destroy.specs.Destroying.{DomainDestroyed};
ghost use Rattle.domain_destroy.specs.Emptying.{NamesNone};
ghost use Rattle.xp_preempt.specs.Gates.{Gated};

use crate::phases::{check_all, clear_all, empty_all, list_all, start, stop_all};
use crate::place::DestroyAt;
use life_words::bury;
use xp_board::Port;
use xp_preempt::Preempt;
use xp_words::{LogLine, Stop};

/// Destroys a domain over which the own one has privilege (`XEN_DOMCTL_destroydomain` of `domctl.h`): its vCPUs are found stopped, their words are emptied, the marks of
/// its frames are taken off, and what they held is released; no page table or descriptor page of it is to be in use; each frame that somebody still refers to gets a line in
/// the log, under operation number `op`; and then the domain is dead. The answer is how many frames it left.
///
/// `at`: where the destruction stands, which a pause leaves for a later turn. The log has room for a line for each frame that is still to be looked at.
pub fn destroy<P: Port>(
    port: &mut P,
    gate: &mut dyn Preempt,
    domain: u64,
    at: &mut DestroyAt,
    log: &mut Vec<LogLine>,
    op: u32,
) -> Result<u32, Stop>
    requires rests { Rests (P.value port.old) }
    requires clear { NamesNone (P.value port.old) }
    requires come { HasComeTo (P.value port.old) domain at.old op log.old.items }
    requires room { vec_len log.old + (P.value port.old).post.machine.frames ≤ vec_capacity log.old + seen_to at.old }
    ensures destroyed { Gated (policy gate.old) (policy gate.new) (is_due_answer result) (λ answers. DomainDestroyed (P.value port.old) (P.value port.new) domain op at.old at.new log.old.items log.new.items answers result) }
    ensures room { vec_len log.new + (P.value port.old).post.machine.frames ≤ vec_capacity log.new + seen_to at.new }
    ensures capacity { vec_capacity log.new ≡ vec_capacity log.old }
{
    start(port, domain, at)?;
    let domain = domain as u16;
    stop_all(port, domain, at)?;
    empty_all(port, gate, domain, at)?;
    clear_all(port, gate, domain, at)?;
    check_all(port, domain, at)?;
    let left = list_all(port, domain, at, log, op)?;
    bury(port, domain);
    Ok(left)
}
