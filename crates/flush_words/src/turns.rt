//! Steps that begin and end turns and answers.
ghost use Rattle.std.specs.Prelude.{◌≡◌, Some, None};
ghost use Rattle.xp_words.specs.declared.place.Place.TheVariants.{Clock};
ghost use Rattle.xp_words.specs.Places.{asked_of, run_of};
ghost use Rattle.xp_board.specs.Hands.{IsEmptyHand};
ghost use Rattle.xp_board.specs.Marks.{after_mark};
ghost use Rattle.xp_board.specs.RunSteps.{after_run};
ghost use Rattle.xp_board.specs.Told.{own_run};
ghost use Rattle.xp_board.specs.declared.step.Act.TheVariants.{Load, Store};
ghost use Rattle.xp_board.specs.declared.step.Mark.TheVariants.{Cut, Turn};
ghost use Rattle.xp_board.specs.declared.step.StepKind.TheVariants as kinds;
ghost use Rattle.step_maker.specs.Holds.{Holds, Same};
ghost use Rattle.step_maker.specs.Moves.{Moves};

use crate::flushes::{ASKED, RUN};
use step_maker::make;
use xp_board::{Act, Mark, Port, StepKind};
use xp_words::Place;

// A run word.
const STOPPED: u64 = 1;

/// An answer ends: that of a call of a multicall by its number from 1, or of the operation itself with 0.
pub fn end_answer<P: Port>(port: &mut P, call: u32) -> u64
    ensures moves { Moves (P.value port.old) (P.value port.new) Clock Load kinds.Look (Some (Cut call)) result }
    ensures hand { Same (P.value port.old) (P.value port.new) }
{
    make(
        port,
        Place::Clock,
        Act::Load,
        StepKind::Look,
        Some(Mark::Cut { call }),
    )
}

/// A turn begins: up to which clock value the vCPU was asked to flush.
pub fn begin_turn<P: Port>(port: &mut P) -> u64
    ensures moves { Moves (P.value port.old) (P.value port.new) (asked_of (P.value port.old).post.vcpu) Load kinds.Look (Some Turn) result }
    ensures hand { Holds (P.value port.old) (P.value port.new) (after_mark (P.value port.old).post.machine (Some Turn) (P.value port.old).holdings) }
{
    let vcpu = port.vcpu();
    make(
        port,
        Place::Vcpu { vcpu, word: ASKED },
        Act::Load,
        StepKind::Look,
        Some(Mark::Turn),
    )
}

/// Loads the own run word.
pub fn look_run<P: Port>(port: &mut P) -> u64
    ensures moves { Moves (P.value port.old) (P.value port.new) (run_of (P.value port.old).post.vcpu) Load kinds.Look None result }
    ensures own { result ≡ own_run (P.value port.old) }
    ensures hand { Holds (P.value port.old) (P.value port.new) (record (P.value port.old).holdings { run = Some result }) }
{
    let vcpu = port.vcpu();
    make(
        port,
        Place::Vcpu { vcpu, word: RUN },
        Act::Load,
        StepKind::Look,
        None,
    )
}

/// Stops the own vCPU for good. It has nothing in hand, and loses its translations. Answers the run word that was found.
pub fn stop_vcpu<P: Port>(port: &mut P) -> u64
    requires empty { IsEmptyHand (P.value port.old).holdings }
    requires landed { (P.value port.old).holdings.walk ≡ None }
    ensures moves { Moves (P.value port.old) (P.value port.new) (run_of (P.value port.old).post.vcpu) (Store 1) kinds.Run None result }
    ensures hand { Holds (P.value port.old) (P.value port.new) (record (after_run (Store 1) (P.value port.old).holdings) { run = Some 1 }) }
{
    let vcpu = port.vcpu();
    make(
        port,
        Place::Vcpu { vcpu, word: RUN },
        Act::Store { new: STOPPED },
        StepKind::Run,
        None,
    )
}
