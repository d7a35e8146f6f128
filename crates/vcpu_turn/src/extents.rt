//! Lists of `memory_op`: extents that go on from turn to turn.
ghost use Rattle.std.specs.Prelude.{◌≡◌, ◌+◌, ◌<◌, ◌≤◌, Some, None, IfSome, ◌++◌, length, vec_len, vec_capacity};
ghost use Rattle.xp_board.specs.Readings.{domain_of};
ghost use Rattle.step_maker.specs.Holds.{Rests};
ghost use Rattle.vcpu_turn.specs.Extents.{ListsExtents, SuitsExtents, block_at, extent_at, extents_in, given_lines, gives_blocks, is_memory_command, lines_by, mem_refusal};
ghost use Rattle.vcpu_turn.specs.Cpus.{OfMem, lines_made, room_by, room_of};
ghost use Rattle.vcpu_turn.specs.Lists.{is_due_answer};
ghost use Rattle.vcpu_turn.specs.Settling.{IsWarm};
ghost use Rattle.vcpu_turn.specs.Working.{GoesExtents};
ghost use Rattle.xp_preempt.specs.Gates.{GatedPast};

use crate::cpu::{CallNumber, Progress};
use reservations::{Extent, reserve};
use xp_board::Port;
use xp_preempt::Preempt;
use xp_words::{LogLine, Pause, Refusal, Stop};

// `XENMEM_increase_reservation`, `XENMEM_decrease_reservation` and `XENMEM_populate_physmap`: the low six bits of a command.
const INCREASE: u64 = 0;

const DECREASE: u64 = 1;

const POPULATE: u64 = 6;

const COMMANDS: u64 = 64;

// The most extents that a list may have, and the largest order of one.
const LONGEST: u64 = 512;

const LARGEST: u64 = 9;

/// The list of the call of that number, for the domain that makes it.
#[derive(Clone, Copy, Drop)]
pub(crate) struct Extents<'a> {
    pub domain: u16,
    pub number: CallNumber,
    pub command: u64,
    pub order: u64,
    pub items: &'a [u64],
}

impl<'a> Extents<'a> {
    fn count(&self) -> u64
        ensures { result ≡ extents_in self.now.command self.now.items.now }
    {
        if self.command % COMMANDS != INCREASE {
            return self.items.len() as u64;
        }
        match self.items {
            [count] => *count,
            _ => 0,
        }
    }

    fn is_known(&self) -> bool
        ensures { result ≡ is_memory_command self.now.command }
    {
        let deed = self.command % COMMANDS;
        deed == INCREASE || deed == DECREASE || deed == POPULATE
    }

    fn gives(&self) -> bool
        ensures { result ≡ gives_blocks self.now.command }
    {
        let deed = self.command % COMMANDS;
        deed == INCREASE || deed == POPULATE
    }

    // Why the list is refused as a whole.
    fn refusal(&self) -> Option<Refusal>
        ensures { result ≡ mem_refusal self.now.command self.now.order self.now.items.now }
    {
        if self.command % COMMANDS == INCREASE && self.items.len() != 1 {
            return Some(Refusal::BadRange);
        }
        let count = self.count();
        if count > LONGEST {
            return Some(Refusal::BatchLong);
        }
        if count == 0 {
            return None;
        }
        if !self.is_known() {
            return Some(Refusal::BadCommand);
        }
        if self.order > LARGEST || self.command / COMMANDS > count {
            return Some(Refusal::BadRange);
        }
        None
    }

    // How many lines the log may get of blocks that are given.
    pub(crate) fn room(&self) -> usize
        ensures lines { result ≡ room_by (gives_blocks self.now.command) (mem_refusal self.now.command self.now.order self.now.items.now) (extents_in self.now.command self.now.items.now) }
        ensures few { result ≤ 512 }
    {
        if self.gives() && self.refusal().is_none() {
            self.count() as usize
        } else {
            0
        }
    }

    fn extent(&self, index: u32) -> Extent
        requires checked { mem_refusal self.now.command self.now.order self.now.items.now ≡ None }
        requires index { index < extents_in self.now.command self.now.items.now }
        ensures { extent_at self.now.command self.now.items.now index ≡ Some result }
    {
        match self.command % COMMANDS {
            INCREASE => Extent::Increase,
            DECREASE => Extent::Decrease {
                first: self.items[index as usize],
            },
            _ => Extent::Populate {
                gpfn: self.items[index as usize],
            },
        }
    }
}

// A block that extent number `extent` was given has its line. The log has room for it.
fn log_block(log: &mut Vec<LogLine>, number: CallNumber, extent: u32, given: Option<u32>)
    requires room { IfSome given (λ first. vec_len log.old < vec_capacity log.old) }
    ensures lines { log.new.items ≡ log.old.items ++ given_lines number (block_at extent given) }
    ensures len { vec_len log.new ≡ vec_len log.old + length (block_at extent given) }
    ensures capacity { vec_capacity log.new ≡ vec_capacity log.old }
{
    if let Some(frame) = given {
        log.push_reserved(LogLine::Given {
            op: number.op,
            call: number.call,
            extent,
            frame,
        });
    }
}

// The extents from number `done` on, of which that one goes on from `within`. Each block that is given is logged. The gate is asked after each extent but the last.
fn go_on<P: Port>(
    port: &mut P,
    gate: &mut dyn Preempt,
    list: &Extents<'_>,
    done: &mut u32,
    within: &mut u32,
    log: &mut Vec<LogLine>,
) -> Result<(), Stop>
    requires within { done.old ≤ extents_in list.now.command list.now.items.now }
    requires suits { SuitsExtents list.now.domain list.now.command list.now.order list.now.items.now (P.value port.old) }
    requires rests { Rests (P.value port.old) }
    requires warm { IsWarm (P.value port.old) }
    requires room { vec_len log.old + lines_by list.now.command (extents_in list.now.command list.now.items.now) ≤ vec_capacity log.old + lines_by list.now.command done.old }
    ensures post { (P.value port.new).post ≡ (P.value port.old).post }
    ensures within { done.new ≤ extents_in list.now.command list.now.items.now }
    ensures works { GatedPast (policy gate.old) (policy gate.new) (is_due_answer result) (λ answers. ListsExtents list.now.domain list.now.command list.now.order list.now.items.now list.now.number done.old within.old (P.value port.old) done.new within.new (P.value port.new) log.old.items log.new.items answers result) }
    ensures capacity { vec_capacity log.new ≡ vec_capacity log.old }
    ensures room { vec_len log.new + lines_by list.now.command done.old ≤ vec_len log.old + lines_by list.now.command done.new }
    ensures rests { Rests (P.value port.new) }
    ensures warm { IsWarm (P.value port.new) }
{
    let count = list.count() as u32;
    while *done < count {
        let extent = list.extent(*done);
        let given = reserve(port, list.domain, list.order as u8, extent, within)?;
        *within = 0;
        log_block(log, list.number, *done, given);
        *done += 1;
        if *done == count {
            return Ok(());
        }
        if gate.due() {
            return Err(Stop::Paused(Pause::Due));
        }
    }
    Ok(())
}

/// A list of extents goes on from where it is. The first extent that is still to be done is named by the command, too.
pub(crate) fn go_through_extents<P: Port>(
    port: &mut P,
    gate: &mut dyn Preempt,
    list: &Extents<'_>,
    at: &mut Progress,
    log: &mut Vec<LogLine>,
) -> Result<(), Stop>
    requires within { at.old.done ≤ extents_in list.now.command list.now.items.now }
    requires own { list.now.domain ≡ domain_of (P.value port.old).post.machine (P.value port.old).post.vcpu }
    requires rests { Rests (P.value port.old) }
    requires warm { IsWarm (P.value port.old) }
    requires room { vec_len log.old + room_of (Some (OfMem list.now.command list.now.order list.now.items.now)) ≤ vec_capacity log.old + lines_made (Some (OfMem list.now.command list.now.order list.now.items.now)) at.old.done }
    ensures post { (P.value port.new).post ≡ (P.value port.old).post }
    ensures within { at.new.done ≤ extents_in list.now.command list.now.items.now }
    ensures works { GatedPast (policy gate.old) (policy gate.new) (is_due_answer result) (λ answers. GoesExtents list.now.domain list.now.command list.now.order list.now.items.now list.now.number (P.value port.old) at.old at.new (P.value port.new) log.old.items log.new.items answers result) }
    ensures capacity { vec_capacity log.new ≡ vec_capacity log.old }
    ensures room { vec_len log.new + lines_made (Some (OfMem list.now.command list.now.order list.now.items.now)) at.old.done ≤ vec_len log.old + lines_made (Some (OfMem list.now.command list.now.order list.now.items.now)) at.new.done }
    ensures rests { Rests (P.value port.new) }
    ensures warm { IsWarm (P.value port.new) }
{
    if let Some(refusal) = list.refusal() {
        at.done = 0;
        return Err(Stop::Refused(refusal));
    }
    if list.count() == 0 {
        return Ok(());
    }
    at.done = at.done.max((list.command / COMMANDS) as u32);
    go_on(port, gate, list, &mut at.done, &mut at.within, log)
}
