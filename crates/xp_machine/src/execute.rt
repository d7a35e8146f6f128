ghost use Rattle.std.specs.Prelude.{◌≡◌, ◌≤◌, length, map, vec_len, IfOk};
ghost use Rattle.xp_words.specs.Places.{size, sizes_of};
ghost use Rattle.report_text.specs.ReportOf.{report_of};
ghost use Rattle.trace_text.specs.Counted.{ops_of};
ghost use Rattle.trace_text.specs.WellFormed.{IsWellFormed};
ghost use Rattle.vcpu_runners.specs.Turns.{pending_of};
ghost use Rattle.vcpu_runners.specs.Cpus.{AreShort, first_cpus};
ghost use Rattle.xp_machine.specs.Ran.{ImagedTrace, RanGenerated, RanToSteps, RanToWords, RanTrace, ToldTrace, first_gates, log_of};
ghost use Rattle.vcpu_runners.specs.Rows.{cpus_of, gates_of};

use crate::turns::run_all;
use dead_domains::a_burial_leaves_only_what_is_listed;
use machine_build::opening;
use machine_image::Image;
use opening_rule::opening_words_are_sound;
use report_text::{report, summary};
use shared_board::PlainBoard;
use sound_rule::{a_run_leaves_it_safe, rested_words_are_sound};
use sparse_words::SparseWords;
use std::alloc::{AllocError, Global};
use step_text::{ToldStep, steps_text};
use told_board::ToldBoard;
use trace_gen::generate;
use trace_text::{ScriptList, Trace};
use vcpu_runners::{Cpu, Runner};
use xp_preempt::Preempt;
use xp_words::{Layout, Log};

// The vCPUs before their first turn, each with its gate. Gates that are left over are let go.
pub(crate) fn first_runners(
    alloc: Global,
    layout: &Layout,
    scripts: ScriptList,
    gates: Vec<Box<dyn Preempt + Send>>,
) -> Result<Vec<Runner>, AllocError>
    requires scripts { length scripts ≡ (sizes_of layout.now).vcpus }
    requires few { ops_of scripts ≤ 65536 }
    requires gates { length scripts ≤ vec_len gates }
    ensures { IfOk result (λ v. (cpus_of v.items ≡ first_cpus layout.now scripts) × (gates_of policy v.items ≡ first_gates layout.now (map policy gates.items))) }
{
    let mut runners = Vec::new(alloc);
    'runners: for ((vcpu, script), gate) in (0..layout.vcpus())
        .zip(scripts.into_items())
        .zip(gates)
    {
        let cpu = Cpu::new(alloc, layout, vcpu, script)?;
        runners.push(Runner::new(cpu, gate))?;
    }
    Ok(runners)
}

// What the vCPUs logged, and how many operations each of them has not answered.
fn logs_and_pending(alloc: Global, runners: Vec<Runner>) -> Result<(Vec<Log>, Vec<u32>), AllocError>
    requires short { AreShort (cpus_of runners.items) }
    ensures { IfOk result (λ r. (r.0.items ≡ map log_of (cpus_of runners.items)) × (r.1.items ≡ map pending_of (cpus_of runners.items))) }
{
    let mut logs = Vec::new(alloc);
    let mut pending = Vec::new(alloc);
    'runners: for runner in runners {
        let (cpu, _) = runner.into_parts();
        pending.push(cpu.pending())?;
        logs.push(cpu.into_log())?;
    }
    Ok((logs, pending))
}

// The report of these words and of the vCPUs' logs.
pub(crate) fn report_with(
    alloc: Global,
    layout: &Layout,
    words: &SparseWords,
    runners: Vec<Runner>,
) -> Result<Vec<u8>, AllocError>
    requires words { length words.now ≡ size (sizes_of layout.now) }
    requires each { length runners.items ≡ (sizes_of layout.now).vcpus }
    requires short { AreShort (cpus_of runners.items) }
    ensures { IfOk result (λ v. v.items ≡ report_of layout.now words.now (map log_of (cpus_of runners.items)) (map pending_of (cpus_of runners.items))) }
{
    let (logs, pending) = logs_and_pending(alloc, runners)?;
    report(alloc, layout, words, &logs, &pending)
}

// Runs a trace: the machine is made, the turns are taken, and the vCPUs stop. Gives the closing words and the vCPUs. Gate v belongs to vCPU
// v and comes back with it; the further ones are let go at once.
fn run_words(
    alloc: Global,
    trace: Trace,
    gates: Vec<Box<dyn Preempt + Send>>,
) -> Result<(SparseWords, Vec<Runner>), AllocError>
    requires well { IsWellFormed trace }
    requires gates { 16 ≤ vec_len gates }
    ensures ran { IfOk result (λ r. RanToWords trace (map policy gates.items) r.0 (cpus_of r.1.items)) }
    ensures words { IfOk result (λ r. length r.0 ≡ size (sizes_of trace.layout)) }
    ensures cpus { IfOk result (λ r. (length r.1.items ≡ (sizes_of trace.layout).vcpus) × AreShort (cpus_of r.1.items)) }
{
    // What the steps keep is law: these calls do nothing.
    opening_words_are_sound();
    a_run_leaves_it_safe();
    rested_words_are_sound();
    a_burial_leaves_only_what_is_listed();
    let words = opening(alloc, &trace)?;
    let Trace {
        version: _,
        layout,
        clock: _,
        owned: _,
        cells: _,
        scripts,
        turns,
    } = trace;
    let runners = first_runners(alloc, &layout, scripts, gates)?;
    let board = PlainBoard::make(alloc, layout, words)?;
    let (board, runners) = run_all(board, runners, turns.as_slice());
    Ok((board.into_words(), runners))
}

/// Runs a trace by the turns that it asks for, and writes the report out: it is that of words that legal steps lead to. The
/// gates are let go at the end.
pub fn execute(
    alloc: Global,
    trace: Trace,
    gates: Vec<Box<dyn Preempt + Send>>,
) -> Result<Vec<u8>, AllocError>
    requires well { IsWellFormed trace }
    requires gates { 16 ≤ vec_len gates }
    ensures { IfOk result (λ v. RanTrace trace (map policy gates.items) v.items) }
{
    let layout = trace.layout.copy();
    let (words, runners) = run_words(alloc, trace, gates)?;
    report_with(alloc, &layout, &words, runners)
}

// What a run that lists its steps leaves.
struct Told {
    words: SparseWords,
    steps: Vec<ToldStep>,
    runners: Vec<Runner>,
}

// Runs a trace as `run_words` does, on a board that lists its steps.
fn run_told(
    alloc: Global,
    trace: Trace,
    gates: Vec<Box<dyn Preempt + Send>>,
) -> Result<Told, AllocError>
    requires well { IsWellFormed trace }
    requires gates { 16 ≤ vec_len gates }
    ensures ran { IfOk result (λ r. RanToSteps trace (map policy gates.items) r.words r.steps.items (cpus_of r.runners.items)) }
    ensures words { IfOk result (λ r. length r.words ≡ size (sizes_of trace.layout)) }
    ensures cpus { IfOk result (λ r. (length r.runners.items ≡ (sizes_of trace.layout).vcpus) × AreShort (cpus_of r.runners.items)) }
{
    // What the steps keep is law: these calls do nothing.
    opening_words_are_sound();
    a_run_leaves_it_safe();
    rested_words_are_sound();
    a_burial_leaves_only_what_is_listed();
    let words = opening(alloc, &trace)?;
    let Trace {
        version: _,
        layout,
        clock: _,
        owned: _,
        cells: _,
        scripts,
        turns,
    } = trace;
    let first = first_runners(alloc, &layout, scripts, gates)?;
    let board = ToldBoard::make(alloc, layout, words)?;
    let (board, runners) = run_all(board, first, turns.as_slice());
    let (words, steps) = board.into_parts();
    let steps = steps?;
    Ok(Told {
        words,
        steps,
        runners,
    })
}

/// Runs a trace in the same way, and writes the report out with a line for each step behind it.
pub fn execute_told(
    alloc: Global,
    trace: Trace,
    gates: Vec<Box<dyn Preempt + Send>>,
) -> Result<Vec<u8>, AllocError>
    requires well { IsWellFormed trace }
    requires gates { 16 ≤ vec_len gates }
    ensures { IfOk result (λ v. ToldTrace trace (map policy gates.items) v.items) }
{
    let layout = trace.layout.copy();
    let Told {
        words,
        steps,
        runners,
    } = run_told(alloc, trace, gates)?;
    let mut text = report_with(alloc, &layout, &words, runners)?;
    let lines = steps_text(alloc, &layout, &steps)?;
    text.extend_from_slice(&lines)?;
    Ok(text)
}

/// Runs a trace in the same way, and gives the closing machine as an image that is to be written.
pub fn execute_imaged(
    alloc: Global,
    trace: Trace,
    gates: Vec<Box<dyn Preempt + Send>>,
) -> Result<Image, AllocError>
    requires well { IsWellFormed trace }
    requires gates { 16 ≤ vec_len gates }
    ensures { IfOk result (λ i. ImagedTrace trace (map policy gates.items) i) }
{
    let layout = trace.layout.copy();
    let (words, _) = run_words(alloc, trace, gates)?;
    Image::new(alloc, &layout, words)
}

/// Runs the generated trace of so many operations in the same way, and sums up how they were answered.
pub fn execute_generated(
    alloc: Global,
    operations: u32,
    gates: Vec<Box<dyn Preempt + Send>>,
) -> Result<Vec<u8>, AllocError>
    requires least { 1 ≤ operations }
    requires most { operations ≤ 60000 }
    requires gates { 16 ≤ vec_len gates }
    ensures { IfOk result (λ v. RanGenerated operations (map policy gates.items) v.items) }
{
    let trace = generate(alloc, operations)?;
    let layout = trace.layout.copy();
    let (words, runners) = run_words(alloc, trace, gates)?;
    let (logs, _) = logs_and_pending(alloc, runners)?;
    summary(alloc, operations, &layout, &words, &logs)
}
