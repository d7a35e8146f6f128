//! The phases of a destruction, each from the place where it stands.
ghost use Rattle.std.specs.Prelude.{◌≡◌, ◌≤◌, ◌+◌, [], false, IfOk, vec_len, vec_capacity};
ghost use Rattle.step_maker.specs.Holds.{Rests};
ghost use Rattle.level_release.specs.Asking.{is_due_answer};
ghost use Rattle.domain_destroy.specs.Coming.{HasComeTo, seen_to};
ghost use Rattle.domain_destroy.specs.Destroying.{HasComeSomehow, KeepsComing, ListsAll, PhaseWent, phase_of};
ghost use Rattle.domain_destroy.specs.Emptying.{NamesNone};
ghost use Rattle.xp_preempt.specs.Gates.{Gated};

use crate::beginning::begin;
use crate::clearing::clear_frames;
use crate::emptying::empty_vcpus;
use crate::listing::list_frames;
use crate::place::DestroyAt;
use crate::stopping::find_stopped;
use crate::unused::find_unused;
use xp_board::Port;
use xp_preempt::Preempt;
use xp_words::{LogLine, Stop};

/// The vCPU destroys the domain from here on, unless it does already.
pub(crate) fn start<P: Port>(port: &mut P, domain: u64, at: &mut DestroyAt) -> Result<(), Stop>
    requires rests { Rests (P.value port.old) }
    requires clear { NamesNone (P.value port.old) }
    requires come { HasComeSomehow (P.value port.old) domain at.old }
    ensures went { PhaseWent (P.value port.old) (P.value port.new) domain at.old at.new [] [] result }
    ensures come { KeepsComing (P.value port.old) (P.value port.new) domain at.old at.new }
    ensures past { IfOk result (λ _. 1 ≤ phase_of at.new) }
    ensures undue { is_due_answer result ≡ false }
{
    if let DestroyAt::Begins = *at {
        begin(port, domain)?;
        *at = DestroyAt::Stops { vcpu: 0 };
    }
    Ok(())
}

/// All vCPUs of the domain are found stopped.
pub(crate) fn stop_all<P: Port>(port: &mut P, domain: u16, at: &mut DestroyAt) -> Result<(), Stop>
    requires rests { Rests (P.value port.old) }
    requires clear { NamesNone (P.value port.old) }
    requires phase { 1 ≤ phase_of at.old }
    requires come { HasComeSomehow (P.value port.old) domain at.old }
    ensures went { PhaseWent (P.value port.old) (P.value port.new) domain at.old at.new [] [] result }
    ensures come { KeepsComing (P.value port.old) (P.value port.new) domain at.old at.new }
    ensures past { IfOk result (λ _. 2 ≤ phase_of at.new) }
    ensures undue { is_due_answer result ≡ false }
{
    if let DestroyAt::Stops { mut vcpu } = *at {
        let answer = find_stopped(port, domain, &mut vcpu);
        *at = DestroyAt::Stops { vcpu };
        answer?;
        *at = DestroyAt::Empties { vcpu: 0 };
    }
    Ok(())
}

/// All their words that may name a frame are empty.
pub(crate) fn empty_all<P: Port>(
    port: &mut P,
    gate: &mut dyn Preempt,
    domain: u16,
    at: &mut DestroyAt,
) -> Result<(), Stop>
    requires rests { Rests (P.value port.old) }
    requires clear { NamesNone (P.value port.old) }
    requires phase { 2 ≤ phase_of at.old }
    requires come { HasComeSomehow (P.value port.old) domain at.old }
    ensures went { Gated (policy gate.old) (policy gate.new) (is_due_answer result) (λ answers. PhaseWent (P.value port.old) (P.value port.new) domain at.old at.new [] answers result) }
    ensures come { KeepsComing (P.value port.old) (P.value port.new) domain at.old at.new }
    ensures past { IfOk result (λ _. 3 ≤ phase_of at.new) }
{
    if let DestroyAt::Empties { mut vcpu } = *at {
        let answer = empty_vcpus(port, gate, domain, &mut vcpu);
        *at = DestroyAt::Empties { vcpu };
        answer?;
        *at = DestroyAt::Clears { frame: 0 };
    }
    Ok(())
}

/// All frames of the domain are without their marks.
pub(crate) fn clear_all<P: Port>(
    port: &mut P,
    gate: &mut dyn Preempt,
    domain: u16,
    at: &mut DestroyAt,
) -> Result<(), Stop>
    requires rests { Rests (P.value port.old) }
    requires clear { NamesNone (P.value port.old) }
    requires phase { 3 ≤ phase_of at.old }
    requires come { HasComeSomehow (P.value port.old) domain at.old }
    ensures went { Gated (policy gate.old) (policy gate.new) (is_due_answer result) (λ answers. PhaseWent (P.value port.old) (P.value port.new) domain at.old at.new [] answers result) }
    ensures come { KeepsComing (P.value port.old) (P.value port.new) domain at.old at.new }
    ensures past { IfOk result (λ _. 4 ≤ phase_of at.new) }
{
    if let DestroyAt::Clears { mut frame } = *at {
        let answer = clear_frames(port, gate, domain, &mut frame);
        *at = DestroyAt::Clears { frame };
        answer?;
        *at = DestroyAt::Checks;
    }
    Ok(())
}

/// None of them is a page table or descriptor page in use.
pub(crate) fn check_all<P: Port>(port: &mut P, domain: u16, at: &mut DestroyAt) -> Result<(), Stop>
    requires rests { Rests (P.value port.old) }
    requires clear { NamesNone (P.value port.old) }
    requires phase { 4 ≤ phase_of at.old }
    requires come { HasComeSomehow (P.value port.old) domain at.old }
    ensures went { PhaseWent (P.value port.old) (P.value port.new) domain at.old at.new [] [] result }
    ensures come { KeepsComing (P.value port.old) (P.value port.new) domain at.old at.new }
    ensures past { IfOk result (λ _. 5 ≤ phase_of at.new) }
    ensures undue { is_due_answer result ≡ false }
{
    if let DestroyAt::Checks = *at {
        find_unused(port, domain)?;
        *at = DestroyAt::Lists { frame: 0, left: 0 };
    }
    Ok(())
}

/// Those that are still referred to are listed: how many they are.
pub(crate) fn list_all<P: Port>(
    port: &mut P,
    domain: u16,
    at: &mut DestroyAt,
    log: &mut Vec<LogLine>,
    op: u32,
) -> Result<u32, Stop>
    requires rests { Rests (P.value port.old) }
    requires clear { NamesNone (P.value port.old) }
    requires phase { 5 ≤ phase_of at.old }
    requires come { HasComeTo (P.value port.old) domain at.old op log.old.items }
    requires room { vec_len log.old + (P.value port.old).post.machine.frames ≤ vec_capacity log.old + seen_to at.old }
    ensures went { ListsAll domain op (P.value port.old) at.old log.old.items (P.value port.new) at.new log.new.items result }
    ensures come { HasComeTo (P.value port.new) domain at.new op log.new.items }
    ensures room { vec_len log.new + (P.value port.old).post.machine.frames ≤ vec_capacity log.new + seen_to at.new }
    ensures capacity { vec_capacity log.new ≡ vec_capacity log.old }
    ensures undue { is_due_answer result ≡ false }
{
    let DestroyAt::Lists {
        mut frame,
        mut left,
    } = *at
    else {
        unreachable!()
    };
    let answer = list_frames(port, domain, &mut frame, &mut left, log, op);
    *at = DestroyAt::Lists { frame, left };
    answer?;
    Ok(left)
}
