ghost use Rattle.std.specs.Prelude.{◌≡◌, ◌<◌, ℕ, All, length, slice_index_or};
ghost use Rattle.vcpu_runners.specs.Working.{MayRun, RanOut};

use crate::runner::Runner;
use std::sync::Wait;
use std::thread::{Threads, for_each_mut};
use thread_board::{Pass, SharedBoard};

/// A vCPU with its right to step on a shared board, for one thread.
#[derive(Drop)]
pub struct Worker {
    pub pass: Pass,
    pub runner: Runner,
}

// Makes turns until the vCPU is retired. They may be paused for what other vCPUs have yet to do.
fn work<R: Wait>(rt: &R, board: &SharedBoard, worker: &mut Worker)
    requires { MayRun board.now worker.old.pass worker.old.runner.cpu }
    ensures { RanOut board.now worker.old.pass worker.new.pass (policy worker.old.runner.gate) (policy worker.new.runner.gate) worker.old.runner.cpu worker.new.runner.cpu }
{
    let runner = &mut worker.runner;
    let mut port = worker.pass.port(board);
    'turns: for _ in rt.forever() {
        runner.turn(&mut port);
        if runner.cpu.is_retired() {
            return;
        }
    }
    unreachable!()
}

/// Each vCPU makes its turns in a thread of its own, where one can be had. Returns when all are retired.
pub fn work_all<R: Threads + Wait + Sync>(rt: &R, board: &SharedBoard, workers: &mut [Worker])
    requires { All (λ w. MayRun board.now w.pass w.runner.cpu) workers.old }
    ensures count { length workers.new ≡ length workers.old }
    ensures each { (k : ℕ) (d : _) → k < length workers.old → RanOut board.now (slice_index_or workers.old k d).pass (slice_index_or workers.new k d).pass (policy (slice_index_or workers.old k d).runner.gate) (policy (slice_index_or workers.new k d).runner.gate) (slice_index_or workers.old k d).runner.cpu (slice_index_or workers.new k d).runner.cpu }
{
    let count = workers.len();
    if count == 0 {
        return;
    }
    let call = |_: usize, worker: &mut Worker|
        requires { MayRun board.now worker.old.pass worker.old.runner.cpu }
        ensures { RanOut board.entry.now worker.old.pass worker.new.pass (policy worker.old.runner.gate) (policy worker.new.runner.gate) worker.old.runner.cpu worker.new.runner.cpu }
    { work(rt, board, worker) };
    for_each_mut(rt, workers, count, &call);
}
