ghost use Rattle.std.specs.Prelude.{◌≡◌, ◌≤◌, length, map, vec_len, IfOk};
ghost use Rattle.xp_words.specs.Places.{size, sizes_of};
ghost use Rattle.trace_text.specs.WellFormed.{IsWellFormed};
ghost use Rattle.vcpu_runners.specs.Cpus.{AreShort};
ghost use Rattle.vcpu_runners.specs.Rows.{cpus_of, gates_of};
ghost use Rattle.xp_machine.specs.Replay.{ReplayedTo, ReplayedTrace};

use crate::execute::{first_runners, report_with};
use machine_build::opening;
use opening_rule::opening_words_are_sound;
use sparse_words::SparseWords;
use std::alloc::{AllocError, Global};
use std::sync::Wait;
use std::thread::Threads;
use thread_board::SharedBoard;
use trace_text::Trace;
use vcpu_runners::{Runner, run_in_threads};
use xp_preempt::Preempt;

/// Runs a trace in threads: the machine is made, and each vCPU makes its turns in a thread of its own until it is retired. The turns that
/// the trace asks for play no part. Gives the closing words and the vCPUs, for whoever looks at more of them than a report shows. Gate v
/// belongs to vCPU v and comes back with it; the further ones are let go at once.
pub fn replay_words<R: Threads + Wait + Sync>(
    rt: &R,
    alloc: Global,
    trace: Trace,
    gates: Vec<Box<dyn Preempt + Send>>,
) -> Result<(SparseWords, Vec<Runner>), AllocError>
    requires well { IsWellFormed trace }
    requires gates { 16 ≤ vec_len gates }
    ensures ran { IfOk result (λ r. ReplayedTo trace (map policy gates.items) r.0 (gates_of policy r.1.items) (cpus_of r.1.items)) }
    ensures words { IfOk result (λ r. length r.0 ≡ size (sizes_of trace.layout)) }
    ensures cpus { IfOk result (λ r. (length r.1.items ≡ (sizes_of trace.layout).vcpus) × AreShort (cpus_of r.1.items)) }
{
    // That the opening words are sound is law: this call does nothing.
    opening_words_are_sound();
    let words = opening(alloc, &trace)?;
    let Trace {
        version: _,
        layout,
        clock: _,
        owned: _,
        cells: _,
        scripts,
        turns: _,
    } = trace;
    let runners = first_runners(alloc, &layout, scripts, gates)?;
    let (board, passes) = SharedBoard::make(alloc, layout, words)?;
    run_in_threads(rt, alloc, board, passes, runners)
}

/// Runs a trace in threads, as `replay_words` does, and writes the report out: it is that of words that legal steps lead to.
pub fn replay<R: Threads + Wait + Sync>(
    rt: &R,
    alloc: Global,
    trace: Trace,
    gates: Vec<Box<dyn Preempt + Send>>,
) -> Result<Vec<u8>, AllocError>
    requires well { IsWellFormed trace }
    requires gates { 16 ≤ vec_len gates }
    ensures { IfOk result (λ v. ReplayedTrace trace (map policy gates.items) v.items) }
{
    let layout = trace.layout.copy();
    let (words, runners) = replay_words(rt, alloc, trace, gates)?;
    report_with(alloc, &layout, &words, runners)
}
