ghost use Rattle.std.specs.Prelude.{◌≡◌, ◌+◌, ◌<◌, ◌^◌, true, length, IfErr, IfSome};
ghost use Rattle.xp_board.specs.Readings.{domain_of};
ghost use Rattle.xp_board.specs.Told.{own_run};
ghost use Rattle.step_maker.specs.Holds.{Rests};
ghost use Rattle.mmuext_ops.specs.Elements.{KnowsAwaited};
ghost use Rattle.domain_destroy.specs.Emptying.{NamesNone};
ghost use Rattle.vcpu_turn.specs.Cpus.{after_turn, end_of, job_next, next_of, reply_of};
ghost use Rattle.vcpu_turn.specs.Destroying.{KnowsPlace};
ghost use Rattle.vcpu_turn.specs.Settling.{IsWarm};
ghost use Rattle.vcpu_turn.specs.Turning.{DiesBy, EndsTurn, Idles, TurnBy, IsOf, MakesStop, StopsWhere, NextWentOn, asks_due, is_due};
ghost use Rattle.vcpu_turn.specs.declared.cpu.TurnEnd.TheVariants.{Answered};
ghost use Rattle.xp_preempt.specs.Gates.{GatedPast};

use crate::beginning::begin;
use crate::calls::{done_at, go_on_with};
use crate::cpu::{Cpu, Progress, TurnEnd};
use flush_words::{end_answer, stop_vcpu};
use level_release::settle;
use xp_board::Port;
use xp_preempt::Preempt;
use xp_words::{LogLine, Refusal, Reply, Stop};

// The next operation goes on; there is none at the script's end.
fn go_on<P: Port>(port: &mut P, cpu: &mut Cpu, gate: &mut dyn Preempt) -> Option<Result<u64, Stop>>
    requires short { length cpu.old.script < 2 ^ 32 }
    requires own { cpu.old.domain ≡ domain_of (P.value port.old).post.machine (P.value port.old).post.vcpu }
    requires awaits { KnowsAwaited (P.value port.old) cpu.old.at.awaited }
    requires frames { cpu.old.frames ≡ (P.value port.old).post.machine.frames }
    requires place { KnowsPlace (P.value port.old) (job_next (next_of cpu.old)) (cpu.old.answered + 1) cpu.old.at cpu.old.log }
    requires rests { Rests (P.value port.old) }
    requires clear { NamesNone (P.value port.old) }
    requires warm { IsWarm (P.value port.old) }
    ensures warm { IsWarm (P.value port.new) }
    ensures post { (P.value port.new).post ≡ (P.value port.old).post }
    ensures awaits { KnowsAwaited (P.value port.new) cpu.new.at.awaited }
    ensures place { IfSome result (λ answer. IfErr answer (λ e. KnowsPlace (P.value port.new) (job_next (next_of cpu.old)) (cpu.old.answered + 1) cpu.new.at cpu.new.log)) }
    ensures worked { GatedPast (policy gate.old) (policy gate.new) (asks_due result) (λ answers. NextWentOn (next_of cpu.old) cpu.old cpu.new (P.value port.old) (P.value port.new) answers result) }
    ensures rests { Rests (P.value port.new) }
{
    match cpu.script.as_slice().get(cpu.answered) {
        None => None,
        Some(op) => {
            let number = cpu.answered as u32 + 1;
            let at = &mut cpu.at;
            let log = &mut cpu.log;
            Some(go_on_with(port, gate, cpu.domain, op, number, at, log))
        }
    }
}

// The next operation is answered: its reply is logged, and the answer ends. The log has the room.
fn log_answer<P: Port>(
    port: &mut P,
    cpu: &mut Cpu,
    done: u32,
    value: u64,
    refusal: Option<Refusal>,
) -> Reply
    requires short { length cpu.old.script < 2 ^ 32 }
    requires more { cpu.old.answered < length cpu.old.script }
    requires idles { Idles (P.value port.old) }
    ensures post { (P.value port.new).post ≡ (P.value port.old).post }
    ensures reply { result ≡ reply_of done value refusal }
    ensures cpu { cpu.new ≡ after_turn cpu.old cpu.old.at cpu.old.log (Answered result) }
    ensures ends { EndsTurn (Answered result) (P.value port.old) (P.value port.new) }
    ensures idles { Idles (P.value port.new) }
    ensures run { own_run (P.value port.new) ≡ own_run (P.value port.old) }
{
    end_answer(port, 0);
    let reply = Reply {
        done,
        value,
        refusal,
    };
    let line = LogLine::Answer {
        op: cpu.answered as u32 + 1,
        call: 0,
        reply,
    };
    cpu.log.push_reserved(line);
    cpu.answered += 1;
    cpu.at = Progress::begun();
    reply
}

// The turn ends with that answer of the next operation, or with a pause.
fn finish<P: Port>(port: &mut P, cpu: &mut Cpu, answer: Result<u64, Stop>) -> TurnEnd
    requires short { length cpu.old.script < 2 ^ 32 }
    requires more { cpu.old.answered < length cpu.old.script }
    requires idles { Idles (P.value port.old) }
    ensures post { (P.value port.new).post ≡ (P.value port.old).post }
    ensures end { result ≡ end_of cpu.old.at.done answer }
    ensures cpu { cpu.new ≡ after_turn cpu.old cpu.old.at cpu.old.log (end_of cpu.old.at.done answer) }
    ensures ends { EndsTurn (end_of cpu.old.at.done answer) (P.value port.old) (P.value port.new) }
    ensures idles { Idles (P.value port.new) }
    ensures run { own_run (P.value port.new) ≡ own_run (P.value port.old) }
{
    let done = cpu.at.done;
    match answer {
        Ok(value) => TurnEnd::Answered(log_answer(port, cpu, done, value, None)),
        Err(Stop::Refused(refusal)) => TurnEnd::Answered(log_answer(
            port,
            cpu,
            done,
            0,
            Some(refusal),
        )),
        Err(Stop::Paused(pause)) => TurnEnd::Paused(pause),
    }
}

// The vCPU stops for good.
fn retire<P: Port>(port: &mut P, cpu: &mut Cpu)
    requires idles { Idles (P.value port.old) }
    ensures post { (P.value port.new).post ≡ (P.value port.old).post }
    ensures stop { MakesStop cpu.old cpu.new (P.value port.old) (P.value port.new) }
    ensures idles { Idles (P.value port.new) }
{
    stop_vcpu(port);
    cpu.retired = true;
}

// The domain was found dying, or dead: the vCPU stops, and its next operation is refused; at the script's end it is retired.
fn die<P: Port>(port: &mut P, cpu: &mut Cpu, found: u64) -> TurnEnd
    requires short { length cpu.old.script < 2 ^ 32 }
    requires idles { Idles (P.value port.old) }
    ensures post { (P.value port.new).post ≡ (P.value port.old).post }
    ensures dies { DiesBy found cpu.old (next_of cpu.old) cpu.new (P.value port.old) (P.value port.new) result }
    ensures idles { Idles (P.value port.new) }
{
    if cpu.answered == cpu.script.len() {
        retire(port, cpu);
        return TurnEnd::Retired;
    }
    let done = done_at(&cpu.script.as_slice()[cpu.answered], &cpu.at);
    stop_vcpu(port);
    let domain = cpu.domain;
    TurnEnd::Answered(log_answer(port, cpu, done, 0, Some(Refusal::Dying { domain, found })))
}

/// One turn of a vCPU. It answers the asks of other vCPUs to flush; what an earlier turn left unfinished is settled, and then the next
/// operation goes on until it answers or pauses; at the script's end the vCPU stops and is retired. Where its domain was found dying it stops, and one operation a
/// turn is refused. A turn answers at most one operation, leaves nothing in hand, and takes no memory.
pub fn turn<P: Port>(port: &mut P, cpu: &mut Cpu, gate: &mut dyn Preempt) -> TurnEnd
    requires short { length cpu.old.script < 2 ^ 32 }
    requires of { IsOf (P.value port.old) cpu.old }
    ensures post { (P.value port.new).post ≡ (P.value port.old).post }
    // The turn and the answers of its gate; it is paused for the gate only where that said yes last.
    ensures turn { GatedPast (policy gate.old) (policy gate.new) (is_due result) (λ answers. TurnBy cpu.old.retired cpu.old cpu.new result (P.value port.old) (P.value port.new) answers) }
    ensures of { IsOf (P.value port.new) cpu.new }
{
    if cpu.retired {
        return TurnEnd::Retired;
    }
    let life = begin(port, cpu.domain);
    if life != 0 {
        return die(port, cpu, life);
    }
    match settle(port, gate, &mut cpu.left) {
        Ok(()) => {}
        Err(Stop::Paused(pause)) => return TurnEnd::Paused(pause),
        Err(Stop::Refused(_)) => unreachable!("a release is not refused"),
    }
    match go_on(port, cpu, gate) {
        None => {
            retire(port, cpu);
            TurnEnd::Retired
        }
        Some(answer) => finish(port, cpu, answer),
    }
}

/// Stops a vCPU between its turns, unless it is retired. It is retired then.
pub fn stop<P: Port>(port: &mut P, cpu: &mut Cpu)
    requires of { IsOf (P.value port.old) cpu.old }
    ensures post { (P.value port.new).post ≡ (P.value port.old).post }
    ensures stop { StopsWhere cpu.old.retired cpu.old cpu.new (P.value port.old) (P.value port.new) }
    ensures of { IsOf (P.value port.new) cpu.new }
{
    if !cpu.retired {
        retire(port, cpu);
    }
}
