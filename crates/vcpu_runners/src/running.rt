ghost use Rattle.std.specs.Prelude.{◌≡◌, length, map, IfOk};
ghost use Rattle.xp_words.specs.Places.{sizes_of};
ghost use Rattle.thread_board.specs.Values.{AreOpened};
ghost use Rattle.vcpu_runners.specs.Rows.{cpus_of, gates_of};
ghost use Rattle.vcpu_runners.specs.Replayed.{AreFirst, RanInThreads};

use crate::runner::Runner;
use crate::worker::{Worker, work_all};
use dead_domains::a_burial_leaves_only_what_is_listed;
use sound_rule::rested_words_are_sound;
use sparse_words::SparseWords;
use std::alloc::{AllocError, Global};
use std::sync::Wait;
use std::thread::Threads;
use thread_board::{Pass, SharedBoard};

// Each runner with the pass of its vCPU.
fn pair_up(
    alloc: Global,
    passes: Vec<Pass>,
    runners: Vec<Runner>,
) -> Result<Vec<Worker>, AllocError>
    requires { length runners.items ≡ length passes.items }
    ensures passes { IfOk result (λ v. map (λ w. w.pass) v.items ≡ passes.items) }
    ensures runners { IfOk result (λ v. map (λ w. w.runner) v.items ≡ runners.items) }
{
    let mut workers = Vec::with_capacity(alloc, runners.len())?;
    'pairs: for (pass, runner) in passes.into_iter().zip(runners) {
        workers.push(Worker { pass, runner })?;
    }
    Ok(workers)
}

/// Runs the vCPUs of a board, each in a thread of its own with its own pass, until all are retired, and then ends the board. Gives its
/// words, and the vCPUs. All memory that it needs is taken before the first turn; it fails where that is short alone. Where no
/// threads can be had the vCPUs run one after the other, and one that waits for another may then wait forever.
pub fn run_in_threads<R: Threads + Wait + Sync>(
    rt: &R,
    alloc: Global,
    board: SharedBoard,
    passes: Vec<Pass>,
    runners: Vec<Runner>,
) -> Result<(SparseWords, Vec<Runner>), AllocError>
    requires count { length passes.items ≡ (sizes_of board.machine).vcpus }
    requires opened { AreOpened board.table passes.items }
    requires first { AreFirst board (cpus_of runners.items) }
    ensures { IfOk result (λ r. RanInThreads board (gates_of policy runners.items) (cpus_of runners.items) r.0 (gates_of policy r.1.items) (cpus_of r.1.items)) }
{
    // What a run leaves where all hands are empty, and what a dead domain leaves, are laws: these calls do nothing.
    rested_words_are_sound();
    a_burial_leaves_only_what_is_listed();
    let mut ended = Vec::with_capacity(alloc, passes.len())?;
    let mut retired = Vec::with_capacity(alloc, passes.len())?;
    let mut workers = pair_up(alloc, passes, runners)?;
    work_all(rt, &board, &mut workers);
    'ended: for worker in workers {
        let Worker { pass, runner } = worker;
        ended.push_reserved(pass);
        retired.push_reserved(runner);
    }
    Ok((board.close(ended), retired))
}
