ghost use Rattle.std.specs.Prelude.{◌≡◌};
ghost use Rattle.std.specs.List.{range_with_len};
ghost use Rattle.xp_words.specs.Places.{sizes_of};
ghost use Rattle.vcpu_runners.specs.Gates.{in_box};
ghost use Rattle.xp_machine.specs.Ready.{Ready};
ghost use Rattle.vcpu_runners.specs.Rows.{cpus_of};
ghost use Rattle.xp_machine.specs.Rows.{stage_of};
ghost use Rattle.xp_machine.specs.Turns.{Stops};

use crate::boards::stop_on;
use shared_board::WholeBoard;
use vcpu_runners::Runner;

/// Stops all vCPUs that are not retired, from the first to the last.
pub fn stop_all<B: WholeBoard>(mut board: B, runners: &mut [Runner]) -> B
    requires ready { Ready (B.board board) (cpus_of runners.old) }
    ensures machine { (B.board result).machine ≡ (B.board board).machine }
    ensures opening { (B.board result).story.opening ≡ (B.board board).story.opening }
    ensures stops { Stops (B.board board).machine (range_with_len 0 (sizes_of (B.board board).machine).vcpus) (stage_of (in_box policy) (B.board board) runners.old) (stage_of (in_box policy) (B.board result) runners.new) }
    ensures ready { Ready (B.board result) (cpus_of runners.new) }
{
    let vcpus = board.layout().vcpus();
    'stops: for vcpu in 0..vcpus {
        board = stop_on(board, runners, vcpu);
    }
    board
}
