ghost use Rattle.std.specs.Prelude.{◌≡◌, ◌<◌, length, replicate, All};
ghost use Rattle.xp_machine.specs.Cpus.{order};
ghost use Rattle.vcpu_runners.specs.Gates.{in_box};
ghost use Rattle.xp_machine.specs.Ready.{Ready};
ghost use Rattle.vcpu_runners.specs.Rows.{cpus_of};
ghost use Rattle.xp_machine.specs.Rows.{stage_of};
ghost use Rattle.xp_machine.specs.Turns.{Turns, WorksOff};

use crate::boards::turn_on;
use crate::stops::stop_all;
use shared_board::WholeBoard;
use trace_text::TurnRun;
use vcpu_runners::Runner;

// So many turns of one vCPU in a row.
fn turns_of<B: WholeBoard>(mut board: B, runners: &mut [Runner], vcpu: u32, count: u32) -> B
    requires known { vcpu < length runners.old }
    requires ready { Ready (B.board board) (cpus_of runners.old) }
    ensures machine { (B.board result).machine ≡ (B.board board).machine }
    ensures opening { (B.board result).story.opening ≡ (B.board board).story.opening }
    ensures turns { Turns (B.board board).machine (replicate count vcpu) (stage_of (in_box policy) (B.board board) runners.old) (stage_of (in_box policy) (B.board result) runners.new) }
    ensures ready { Ready (B.board result) (cpus_of runners.new) }
{
    'turns: for _turn in 0..count {
        board = turn_on(board, runners, vcpu);
    }
    board
}

// The turns of the vCPUs, in the order of the runs.
fn take_turns<B: WholeBoard>(mut board: B, runners: &mut [Runner], runs: &[TurnRun]) -> B
    requires known { All (λ r. r.vcpu < length runners.old) runs.now }
    requires ready { Ready (B.board board) (cpus_of runners.old) }
    ensures machine { (B.board result).machine ≡ (B.board board).machine }
    ensures opening { (B.board result).story.opening ≡ (B.board board).story.opening }
    ensures turns { Turns (B.board board).machine (order runs.now) (stage_of (in_box policy) (B.board board) runners.old) (stage_of (in_box policy) (B.board result) runners.new) }
    ensures ready { Ready (B.board result) (cpus_of runners.new) }
{
    'runs: for run in runs {
        board = turns_of(board, runners, run.vcpu, run.count);
    }
    board
}

/// The board and the vCPUs after all turns, and after all that were not retired have stopped.
pub fn run_all<B: WholeBoard>(
    board: B,
    mut runners: Vec<Runner>,
    runs: &[TurnRun],
) -> (B, Vec<Runner>)
    requires known { All (λ r. r.vcpu < length runners.items) runs.now }
    requires ready { Ready (B.board board) (cpus_of runners.items) }
    ensures machine { (B.board result.0).machine ≡ (B.board board).machine }
    ensures opening { (B.board result.0).story.opening ≡ (B.board board).story.opening }
    ensures works { WorksOff (B.board board).machine (order runs.now) (stage_of (in_box policy) (B.board board) runners.items) (stage_of (in_box policy) (B.board result.0) result.1.items) }
    ensures ready { Ready (B.board result.0) (cpus_of result.1.items) }
{
    let board = take_turns(board, &mut runners, runs);
    let board = stop_all(board, &mut runners);
    (board, runners)
}
