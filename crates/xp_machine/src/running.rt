//! The manners in which a trace is run, and what is shown of it.
ghost use Rattle.std.specs.Prelude.{◌≤◌, map, vec_len, IfOk};
ghost use Rattle.trace_text.specs.WellFormed.{IsWellFormed};
ghost use Rattle.xp_machine.specs.Due.{bytes_of};
ghost use Rattle.xp_machine.specs.Outcome.{RanBy};

use crate::due::Text;
use crate::execute::{execute, execute_imaged, execute_told};
use crate::threaded::replay;
use std::alloc::{AllocError, Global};
use std::sync::Wait;
use std::thread::Threads;
use trace_text::Trace;
use xp_preempt::Preempt;

/// What runs a trace, and gives the bytes that show it.
pub(crate) trait Running {
    ghost use Rattle.std.specs.Prelude.{◌≤◌, map, vec_len, IfOk};
    ghost use Rattle.trace_text.specs.WellFormed.{IsWellFormed};
    ghost use Rattle.xp_machine.specs.Due.{bytes_of};
    ghost use Rattle.xp_machine.specs.Outcome.{RanBy, Shown};

    ghost shown: { Shown };

    // What it asks of the types that it runs with.
    ghost crosses: { Type 0 };

    fn run_trace(
        &self,
        alloc: Global,
        trace: Trace,
        gates: Vec<Box<dyn Preempt + Send>>,
    ) -> Result<Text, AllocError>
        requires well { IsWellFormed trace }
        requires gates { 16 ≤ vec_len gates }
        requires crosses { crosses }
        ensures { IfOk result (λ v. RanBy shown trace (map policy gates.items) (bytes_of v)) };
}

/// In one thread, by the turns that the trace asks for.
#[derive(Drop)]
pub(crate) struct InTurns;

impl Running for InTurns {
    ghost use Rattle.std.specs.Prelude.{⊤};
    ghost use Rattle.command_words.specs.declared.asked.Manner.TheVariants.{Turns};
    ghost use Rattle.xp_machine.specs.Outcome.{reported};

    ghost shown = { reported Turns };

    ghost crosses = { ⊤ };

    fn run_trace(
        &self,
        alloc: Global,
        trace: Trace,
        gates: Vec<Box<dyn Preempt + Send>>,
    ) -> Result<Text, AllocError> {
        Ok(Text::Bytes(execute(alloc, trace, gates)?))
    }
}

/// The same, with a line for each step behind the report.
#[derive(Drop)]
pub(crate) struct Telling;

impl Running for Telling {
    ghost use Rattle.std.specs.Prelude.{⊤};
    ghost use Rattle.xp_machine.specs.Outcome.{told};

    ghost shown = { told };

    ghost crosses = { ⊤ };

    fn run_trace(
        &self,
        alloc: Global,
        trace: Trace,
        gates: Vec<Box<dyn Preempt + Send>>,
    ) -> Result<Text, AllocError> {
        Ok(Text::Bytes(execute_told(alloc, trace, gates)?))
    }
}

/// The same, but for the image of the closing machine in place of the report.
#[derive(Drop)]
pub(crate) struct Imaging;

impl Running for Imaging {
    ghost use Rattle.std.specs.Prelude.{⊤};
    ghost use Rattle.xp_machine.specs.Outcome.{imaged};

    ghost shown = { imaged };

    ghost crosses = { ⊤ };

    fn run_trace(
        &self,
        alloc: Global,
        trace: Trace,
        gates: Vec<Box<dyn Preempt + Send>>,
    ) -> Result<Text, AllocError> {
        Ok(Text::Image(execute_imaged(alloc, trace, gates)?))
    }
}

/// Each vCPU in a thread of its own, to the end of its script.
#[derive(Drop)]
pub(crate) struct InThreads<'a, R> {
    pub rt: &'a R,
}

impl<'a, R: Threads + Wait + Sync> Running for InThreads<'a, R> {
    ghost use Rattle.std.specs.Thread.{IsSync};
    ghost use Rattle.command_words.specs.declared.asked.Manner.TheVariants.{Replay};
    ghost use Rattle.xp_machine.specs.Outcome.{reported};

    ghost shown = { reported Replay };

    ghost crosses = { IsSync R.row };

    fn run_trace(
        &self,
        alloc: Global,
        trace: Trace,
        gates: Vec<Box<dyn Preempt + Send>>,
    ) -> Result<Text, AllocError> {
        Ok(Text::Bytes(replay(self.rt, alloc, trace, gates)?))
    }
}
