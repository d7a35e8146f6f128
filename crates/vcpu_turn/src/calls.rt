//! The work of a turn on a whole operation: a multicall, one call after the other, a destruction, or any other.
ghost use Rattle.std.specs.Prelude.{ℕ, ◌≡◌, ◌+◌, ◌<◌, ◌≤◌, [], ◌∷◌, ◌++◌, IfOk, IfErr, vec_len, vec_capacity};
ghost use Rattle.xp_words.specs.declared.reply.LogLine.TheVariants as lines;
ghost use Rattle.xp_board.specs.Readings.{domain_of};
ghost use Rattle.step_maker.specs.Holds.{Rests};
ghost use Rattle.mmuext_ops.specs.Elements.{KnowsAwaited};
ghost use Rattle.vcpu_turn.specs.Calls.{AnswersCall, EndsCall, WentBy, WorksCalls};
ghost use Rattle.domain_destroy.specs.Coming.{seen_to};
ghost use Rattle.domain_destroy.specs.Emptying.{NamesNone};
ghost use Rattle.vcpu_turn.specs.Destroying.{KnowsPlace, WentOnDestroying};
ghost use Rattle.vcpu_turn.specs.Kinds.{IsKindOf};
ghost use Rattle.vcpu_turn.specs.Cpus.{IsFewIn, OfCalls, OfDestroy, begun_at, done_at, elements_in, job_of, lines_made, lines_of, lines_of_call, made_within, reply_of, room_from, task_in, task_of};
ghost use Rattle.vcpu_turn.specs.Lists.{is_due_answer};
ghost use Rattle.vcpu_turn.specs.Settling.{IsWarm};
ghost use Rattle.xp_preempt.specs.Gates.{GatedPast};

use crate::cpu::{CallNumber, Progress};
use crate::tasks::{Piece, room_of, work_on};
use crate::working::valued;
use domain_destroy::destroy;
use flush_words::end_answer;
use level_release::settle;
use xp_board::Port;
use xp_preempt::Preempt;
use xp_words::{Call, LogLine, Op, Refusal, Reply, Stop};

// The most calls that a multicall may have.
const MOST: usize = 64;

// What an operation is: the calls of a multicall, the destruction of a domain, or one by itself.
#[derive(Clone, Copy, Drop)]
enum Kind<'a> {
    Calls(&'a [Call]),
    Destroy { domain: u64 },
    One,
}

fn kind_of(op: &Op) -> Kind<'_>
    ensures { IsKindOf result (job_of op.now) (task_of op.now) }
{
    match op {
        Op::Multi { calls } => Kind::Calls(calls.as_slice()),
        Op::Destroy { domain } => Kind::Destroy { domain: *domain },
        Op::One { .. }
        | Op::Read { .. }
        | Op::Write { .. }
        | Op::TouchLdt { .. }
        | Op::Grant { .. }
        | Op::Revoke { .. }
        | Op::Ptwr { .. }
        | Op::Xchg { .. } => Kind::One,
    }
}

// How many lines these calls log at most.
fn lines_in(calls: &[Call]) -> usize
    ensures lines { (frames : ℕ) → result ≡ room_from frames (OfCalls calls.now) 0 }
    ensures few { result ≤ 32832 }
{
    if calls.len() > MOST {
        return 0;
    }
    let mut lines = 0;
    for call in calls {
        lines += room_of(Piece::Called(call)) + 1;
    }
    lines
}

// How many lines an operation logs at most, on a machine of so many frames.
pub(crate) fn lines_of(op: &Op, frames: u32) -> usize
    requires few { frames ≤ 65536 }
    ensures lines { result ≡ lines_of frames op.now }
    ensures few { result ≤ 65537 }
{
    match kind_of(op) {
        Kind::Calls(calls) => lines_in(calls) + 1,
        Kind::Destroy { .. } => frames as usize + 1,
        Kind::One => room_of(Piece::Whole(op)) + 1,
    }
}

// How much of an operation is done, as a reply to it tells.
pub(crate) fn done_at(op: &Op, at: &Progress) -> u32
    ensures { result ≡ done_at (job_of op.now) at.now }
{
    match kind_of(op) {
        Kind::Calls(_) => u32::from(at.call),
        Kind::Destroy { .. } | Kind::One => at.done,
    }
}

// The reply of a call is logged, its answer ends, and the next one begins. The log has the room.
fn end_call<P: Port>(
    port: &mut P,
    number: CallNumber,
    value: u64,
    refusal: Option<Refusal>,
    at: &mut Progress,
    log: &mut Vec<LogLine>,
)
    requires number { number.call ≡ at.old.call + 1 }
    requires few { number.call ≤ 64 }
    requires rests { Rests (P.value port.old) }
    requires warm { IsWarm (P.value port.old) }
    requires room { vec_len log.old < vec_capacity log.old }
    ensures post { (P.value port.new).post ≡ (P.value port.old).post }
    ensures at { at.new ≡ begun_at number.call }
    ensures cuts { EndsCall number.call (P.value port.old) (P.value port.new) }
    ensures lines { log.new.items ≡ log.old.items ++ lines.Answer number.op number.call (reply_of at.old.done value refusal) ∷ [] }
    ensures len { vec_len log.new ≡ vec_len log.old + 1 }
    ensures capacity { vec_capacity log.new ≡ vec_capacity log.old }
    ensures rests { Rests (P.value port.new) }
    ensures warm { IsWarm (P.value port.new) }
{
    end_answer(port, number.call);
    log.push_reserved(LogLine::Answer {
        op: number.op,
        call: number.call,
        reply: Reply {
            done: at.done,
            value,
            refusal,
        },
    });
    *at = Progress::begun_at(number.call as u16);
}

// The next call of operation number `op` goes on. What is unfinished in front of it is settled first. Done or refused it is answered, and the next one begins.
fn answer_call<P: Port>(
    port: &mut P,
    gate: &mut dyn Preempt,
    domain: u16,
    op: u32,
    call: &Call,
    at: &mut Progress,
    log: &mut Vec<LogLine>,
) -> Result<(), Stop>
    requires number { at.old.call < 64 }
    requires few { at.old.done ≤ elements_in (task_in call.now) }
    requires own { domain ≡ domain_of (P.value port.old).post.machine (P.value port.old).post.vcpu }
    requires awaits { KnowsAwaited (P.value port.old) at.old.awaited }
    requires rests { Rests (P.value port.old) }
    requires warm { IsWarm (P.value port.old) }
    requires room { vec_len log.old + lines_of_call call.now ≤ vec_capacity log.old + lines_made (task_in call.now) at.old.done }
    ensures post { (P.value port.new).post ≡ (P.value port.old).post }
    ensures next { IfOk result (λ _. at.new ≡ begun_at (at.old.call + 1)) }
    ensures same { IfErr result (λ _. (at.new.call ≡ at.old.call) × (at.new.done ≤ elements_in (task_in call.now))) }
    ensures awaits { KnowsAwaited (P.value port.new) at.new.awaited }
    ensures answers { GatedPast (policy gate.old) (policy gate.new) (is_due_answer result) (λ answers. AnswersCall domain call.now op (P.value port.old) at.old log.old.items at.new (P.value port.new) log.new.items answers result) }
    ensures capacity { vec_capacity log.new ≡ vec_capacity log.old }
    ensures answered { IfOk result (λ _. vec_len log.new + lines_made (task_in call.now) at.old.done ≤ vec_len log.old + lines_of_call call.now) }
    ensures room { IfErr result (λ _. vec_len log.new + lines_made (task_in call.now) at.old.done ≤ vec_len log.old + lines_made (task_in call.now) at.new.done) }
    ensures rests { Rests (P.value port.new) }
    ensures warm { IsWarm (P.value port.new) }
{
    settle(port, gate, &mut None)?;
    let number = CallNumber {
        op,
        call: at.call as u32 + 1,
    };
    match work_on(port, gate, domain, Piece::Called(call), number, at, log) {
        Ok(value) => {
            end_call(port, number, value, None, at, log);
            Ok(())
        }
        Err(Stop::Refused(refusal)) => {
            end_call(port, number, 0, Some(refusal), at, log);
            Ok(())
        }
        Err(Stop::Paused(pause)) => Err(Stop::Paused(pause)),
    }
}

// The calls of operation number `op` go on from the first one that is not answered. The gate is not asked between them.
fn answer_calls<P: Port>(
    port: &mut P,
    gate: &mut dyn Preempt,
    domain: u16,
    op: u32,
    calls: &[Call],
    at: &mut Progress,
    log: &mut Vec<LogLine>,
) -> Result<(), Stop>
    requires few { IsFewIn (OfCalls calls.now) at.old }
    requires own { domain ≡ domain_of (P.value port.old).post.machine (P.value port.old).post.vcpu }
    requires awaits { KnowsAwaited (P.value port.old) at.old.awaited }
    requires rests { Rests (P.value port.old) }
    requires warm { IsWarm (P.value port.old) }
    requires room { vec_len log.old + room_from 0 (OfCalls calls.now) at.old.call ≤ vec_capacity log.old + made_within (OfCalls calls.now) at.old }
    ensures post { (P.value port.new).post ≡ (P.value port.old).post }
    ensures few { IsFewIn (OfCalls calls.now) at.new }
    ensures awaits { KnowsAwaited (P.value port.new) at.new.awaited }
    ensures works { GatedPast (policy gate.old) (policy gate.new) (is_due_answer result) (λ answers. WorksCalls domain calls.now op (P.value port.old) at.old log.old.items at.new (P.value port.new) log.new.items answers result) }
    ensures capacity { vec_capacity log.new ≡ vec_capacity log.old }
    ensures room { vec_len log.new + room_from 0 (OfCalls calls.now) at.new.call + made_within (OfCalls calls.now) at.old ≤ vec_len log.old + room_from 0 (OfCalls calls.now) at.old.call + made_within (OfCalls calls.now) at.new }
    ensures rests { Rests (P.value port.new) }
    ensures warm { IsWarm (P.value port.new) }
{
    if calls.len() > MOST {
        at.done = 0;
        at.awaited = None;
        return Err(Stop::Refused(Refusal::BatchLong));
    }
    while (at.call as usize) < calls.len() {
        answer_call(port, gate, domain, op, &calls[at.call as usize], at, log)?;
    }
    at.done = at.call as u32;
    Ok(())
}

// The destruction of a domain, operation number `op`, goes on from its place. It is one element, which is done once the domain is dead.
fn go_on_destroying<P: Port>(
    port: &mut P,
    gate: &mut dyn Preempt,
    domain: u64,
    op: u32,
    at: &mut Progress,
    log: &mut Vec<LogLine>,
) -> Result<u64, Stop>
    requires few { IsFewIn (OfDestroy domain) at.old }
    requires awaits { KnowsAwaited (P.value port.old) at.old.awaited }
    requires place { KnowsPlace (P.value port.old) (OfDestroy domain) op at.old log.old.items }
    requires rests { Rests (P.value port.old) }
    requires clear { NamesNone (P.value port.old) }
    requires warm { IsWarm (P.value port.old) }
    requires room { vec_len log.old + (P.value port.old).post.machine.frames ≤ vec_capacity log.old + seen_to at.old.place }
    ensures post { (P.value port.new).post ≡ (P.value port.old).post }
    ensures few { IsFewIn (OfDestroy domain) at.new }
    ensures awaits { KnowsAwaited (P.value port.new) at.new.awaited }
    ensures went { GatedPast (policy gate.old) (policy gate.new) (is_due_answer result) (λ answers. WentOnDestroying domain op (P.value port.old) at.old at.new (P.value port.new) log.old.items log.new.items answers result) }
    ensures place { IfErr result (λ e. KnowsPlace (P.value port.new) (OfDestroy domain) op at.new log.new.items) }
    ensures capacity { vec_capacity log.new ≡ vec_capacity log.old }
    ensures room { vec_len log.new + (P.value port.old).post.machine.frames ≤ vec_capacity log.new + seen_to at.new.place }
    ensures rests { Rests (P.value port.new) }
    ensures warm { IsWarm (P.value port.new) }
{
    let left = destroy(port, gate, domain, &mut at.place, log, op)?;
    at.done = 1;
    Ok(u64::from(left))
}

/// The operation of that number goes on from where it is, which says in the end how far it came. The log has room for its lines.
pub(crate) fn go_on_with<P: Port>(
    port: &mut P,
    gate: &mut dyn Preempt,
    domain: u16,
    op: &Op,
    number: u32,
    at: &mut Progress,
    log: &mut Vec<LogLine>,
) -> Result<u64, Stop>
    requires few { IsFewIn (job_of op.now) at.old }
    requires own { domain ≡ domain_of (P.value port.old).post.machine (P.value port.old).post.vcpu }
    requires awaits { KnowsAwaited (P.value port.old) at.old.awaited }
    requires place { KnowsPlace (P.value port.old) (job_of op.now) number at.old log.old.items }
    requires rests { Rests (P.value port.old) }
    requires clear { NamesNone (P.value port.old) }
    requires warm { IsWarm (P.value port.old) }
    requires room { vec_len log.old + room_from (P.value port.old).post.machine.frames (job_of op.now) at.old.call ≤ vec_capacity log.old + made_within (job_of op.now) at.old }
    ensures post { (P.value port.new).post ≡ (P.value port.old).post }
    ensures few { IsFewIn (job_of op.now) at.new }
    ensures awaits { KnowsAwaited (P.value port.new) at.new.awaited }
    ensures went { GatedPast (policy gate.old) (policy gate.new) (is_due_answer result) (λ answers. WentBy domain (job_of op.now) number (P.value port.old) at.old at.new (P.value port.new) log.old.items log.new.items answers result) }
    ensures place { IfErr result (λ e. KnowsPlace (P.value port.new) (job_of op.now) number at.new log.new.items) }
    ensures capacity { vec_capacity log.new ≡ vec_capacity log.old }
    ensures room { vec_len log.new + room_from (P.value port.old).post.machine.frames (job_of op.now) at.new.call + made_within (job_of op.now) at.old ≤ vec_len log.old + room_from (P.value port.old).post.machine.frames (job_of op.now) at.old.call + made_within (job_of op.now) at.new }
    ensures rests { Rests (P.value port.new) }
    ensures warm { IsWarm (P.value port.new) }
{
    match kind_of(op) {
        Kind::Calls(calls) => valued(answer_calls(port, gate, domain, number, calls, at, log)),
        Kind::Destroy { domain } => go_on_destroying(port, gate, domain, number, at, log),
        Kind::One => {
            let number = CallNumber {
                op: number,
                call: 0,
            };
            work_on(port, gate, domain, Piece::Whole(op), number, at, log)
        }
    }
}
