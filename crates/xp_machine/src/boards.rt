ghost use Rattle.std.specs.Prelude.{◌≡◌, ◌<◌, length};
ghost use Rattle.vcpu_runners.specs.Gates.{in_box};
ghost use Rattle.vcpu_runners.specs.Rows.{cpus_of};
ghost use Rattle.xp_machine.specs.Ready.{Ready};
ghost use Rattle.xp_machine.specs.Rows.{stage_of};
ghost use Rattle.xp_machine.specs.Turns.{IsStagedStop, IsStagedTurn};

use answer_laws::{
    a_call_alone_is_neither_lost_nor_busy, alone_stays, nobody_is_waited_for, nothing_is_lost,
};
use shared_board::{PlainPort, WholeBoard};
use vcpu_runners::Runner;

/// One turn of one vCPU. Its port has the board meanwhile.
pub fn turn_on<B: WholeBoard>(board: B, runners: &mut [Runner], vcpu: u32) -> B
    requires known { vcpu < length runners.old }
    requires ready { Ready (B.board board) (cpus_of runners.old) }
    ensures machine { (B.board result).machine ≡ (B.board board).machine }
    ensures opening { (B.board result).story.opening ≡ (B.board board).story.opening }
    ensures turn { IsStagedTurn (B.board board).machine vcpu (stage_of (in_box policy) (B.board board) runners.old) (stage_of (in_box policy) (B.board result) runners.new) }
    ensures ready { Ready (B.board result) (cpus_of runners.new) }
{
    // What a vCPU is spared while no other one holds anything is law: these calls do nothing.
    alone_stays();
    a_call_alone_is_neither_lost_nor_busy();
    nobody_is_waited_for();
    nothing_is_lost();
    let runner = &mut runners[vcpu as usize];
    let mut port = PlainPort::new(board, vcpu);
    runner.turn(&mut port);
    port.into_board()
}

/// Stops one vCPU, unless it is retired.
pub fn stop_on<B: WholeBoard>(board: B, runners: &mut [Runner], vcpu: u32) -> B
    requires known { vcpu < length runners.old }
    requires ready { Ready (B.board board) (cpus_of runners.old) }
    ensures machine { (B.board result).machine ≡ (B.board board).machine }
    ensures opening { (B.board result).story.opening ≡ (B.board board).story.opening }
    ensures stop { IsStagedStop (B.board board).machine vcpu (stage_of (in_box policy) (B.board board) runners.old) (stage_of (in_box policy) (B.board result) runners.new) }
    ensures ready { Ready (B.board result) (cpus_of runners.new) }
{
    // That the board stays sound is law: this call does nothing.
    alone_stays();
    let runner = &mut runners[vcpu as usize];
    let mut port = PlainPort::new(board, vcpu);
    runner.stop(&mut port);
    port.into_board()
}
