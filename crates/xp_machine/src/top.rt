ghost use Rattle.std.specs.Prelude.{◌≡◌, ◌≢◌, ◌≤◌, ◌↔◌, ◌⊎◌, None, false, map, string_bytes, List, ℕ, length, vec_len, IfOk, IsErrOf};
ghost use Rattle.xp_io.specs.Causes.{Rose};
ghost use Rattle.trace_text.specs.TraceOf.{trace_of};
ghost use Rattle.vcpu_runners.specs.Gates.{ArePaced};
ghost use Rattle.xp_machine.specs.Due.{bytes_of};
ghost use Rattle.xp_machine.specs.Outcome.{GeneratedOutcome, IsAnswer, IsDue, Outcome, OutcomeBy, Shown, reads, serial_of};
ghost use Rattle.command_words.specs.Words.{words_ask};
ghost use Rattle.xp_preempt.specs.Gates.{Gate, IsPaced};

use crate::audits::{Showing, show_what_is_read};
use crate::due::{Due, Early, Text, write_text};
use crate::execute::execute_generated;
use crate::running::{Imaging, InThreads, InTurns, Running, Telling};
use crate::status::Status;
use crate::texts::{bad_text, large_text};
use command_words::{Asked, Manner, asked_of};
use std::alloc::{AllocError, Global};
use std::sync::Wait;
use std::thread::Threads;
use trace_lines::What;
use trace_text::{MAX_BYTES, TraceFault, read_trace};
use xp_io::{ReadAllError, Sink, Source, read_all, write_whole};
use xp_preempt::Preempt;

// What is due for the bytes of a trace, which is run with these gates.
#[tactic(auto, unfolding(crate::specs::Texts::fault_status))]
fn answer<M: Running>(
    running: &M,
    alloc: Global,
    bytes: &[u8],
    gates: Vec<Box<dyn Preempt + Send>>,
) -> Result<Due, AllocError>
    requires gates { 16 ≤ vec_len gates }
    requires crosses { M.crosses }
    ensures { IfOk result (λ d. IsAnswer M.shown (map policy gates.items) (trace_of bytes.now) d.status (bytes_of d.text)) }
{
    match read_trace(alloc, bytes) {
        Ok(trace) => {
            let text = running.run_trace(alloc, trace, gates)?;
            Ok(Due {
                status: Status::Done,
                text,
            })
        }
        Err(TraceFault::Bad { line, cause }) => {
            let text = bad_text(alloc, line, cause)?;
            Ok(Due {
                status: Status::BadTrace,
                text: Text::Bytes(text),
            })
        }
        Err(TraceFault::Large { line, what, number }) => {
            let text = large_text(alloc, line, what, number)?;
            Ok(Due {
                status: Status::TooLarge,
                text: Text::Bytes(text),
            })
        }
        Err(TraceFault::Memory) => Err(AllocError),
    }
}

// What is due for more bytes than a trace may have.
#[tactic(auto, unfolding(crate::specs::Texts::fault_status, trace_text::specs::TraceOf::trace_of))]
fn too_long(alloc: Global) -> Result<Due, AllocError>
    ensures { IfOk result (λ d. (shown : Shown) (set : List Gate) (bytes : List ℕ) → length bytes ≡ 67108865 → IsAnswer shown set (trace_of bytes) d.status (bytes_of d.text)) }
{
    let text = large_text(alloc, 0, What::Bytes, 67_108_865)?;
    Ok(Due {
        status: Status::TooLarge,
        text: Text::Bytes(text),
    })
}

// What is due for what the source gives.
fn gather<M: Running, S: Source>(
    running: &M,
    alloc: Global,
    source: &mut S,
    gates: Vec<Box<dyn Preempt + Send>>,
) -> Result<Due, Early>
    requires gates { 16 ≤ vec_len gates }
    requires crosses { M.crosses }
    ensures due { IfOk result (λ d. IsDue M.shown (map policy gates.items) (S.left source.old) (S.left source.new) d.status (bytes_of d.text)) }
    ensures failed { IsErrOf result Early.Failed → Rose (S.faults source.old) (S.faults source.new) }
    ensures later { S.faults source.old ≤ S.faults source.new }
    ensures kept { IfOk result (λ _. S.faults source.new ≡ S.faults source.old) }
    ensures unfailed { IsErrOf result Early.Memory → S.faults source.new ≡ S.faults source.old }
{
    match read_all(alloc, source, MAX_BYTES) {
        Ok(bytes) => match answer(running, alloc, &bytes, gates) {
            Ok(due) => Ok(due),
            Err(_) => Err(Early::Memory),
        },
        Err(ReadAllError::Large) => match too_long(alloc) {
            Ok(due) => Ok(due),
            Err(_) => Err(Early::Memory),
        },
        Err(ReadAllError::Failed) => Err(Early::Failed),
        Err(ReadAllError::Memory) => Err(Early::Memory),
    }
}

fn set_pace(gate: &mut Box<dyn Preempt + Send>, every: u32)
    ensures { IsPaced every (policy gate.old) (policy gate.new) }
{
    gate.pace(every);
}

fn set_paces(gates: &mut [Box<dyn Preempt + Send>], every: u32)
    ensures { ArePaced every (map policy gates.old) (map policy gates.new) }
{
    'gates: for gate in gates.iter_mut() {
        set_pace(gate, every);
    }
}

// The gates, each told the pace.
fn paced(mut gates: Vec<Box<dyn Preempt + Send>>, every: u32) -> Vec<Box<dyn Preempt + Send>>
    ensures len { vec_len result ≡ vec_len gates }
    ensures paced { ArePaced every (map policy gates.items) (map policy result.items) }
{
    set_paces(&mut gates, every);
    gates
}

// Reads a trace to its end, runs it with these gates, and writes what is due.
fn run_with<M: Running, S: Source, K: Sink>(
    running: &M,
    alloc: Global,
    source: &mut S,
    sink: &mut K,
    gates: Vec<Box<dyn Preempt + Send>>,
) -> Status
    requires gates { 16 ≤ vec_len gates }
    requires crosses { M.crosses }
    ensures outcome { Outcome (IsDue M.shown (map policy gates.items)) (S.left source.old) (S.left source.new) (K.taken sink.old) (K.taken sink.new) result }
    ensures words { result ≢ Status.BadWords }
    ensures read { result ≡ Status.ReadFault → Rose (S.faults source.old) (S.faults source.new) }
    ensures write { result ≡ Status.WriteFault → Rose (K.faults sink.old) (K.faults sink.new) }
    ensures read_kept { result ≢ Status.ReadFault → S.faults source.new ≡ S.faults source.old }
    ensures write_kept { result ≢ Status.WriteFault → K.faults sink.new ≡ K.faults sink.old }
{
    match gather(running, alloc, source, gates) {
        Err(Early::Failed) => Status::ReadFault,
        Err(Early::Memory) => Status::Memory,
        Ok(Due { status, text }) => match write_text(sink, text) {
            Ok(()) => status,
            Err(_) => Status::WriteFault,
        },
    }
}

// Runs the generated trace of so many operations, in which no gate with a pace says yes, and writes its summary. Nothing is read.
fn run_generated<K: Sink>(
    alloc: Global,
    operations: u32,
    sink: &mut K,
    gates: Vec<Box<dyn Preempt + Send>>,
) -> Status
    requires least { 1 ≤ operations }
    requires most { operations ≤ 60000 }
    requires gates { 16 ≤ vec_len gates }
    ensures outcome { (set : List Gate) × ArePaced 0 (map policy gates.items) set × GeneratedOutcome operations set (K.taken sink.old) (K.taken sink.new) result }
    ensures write { result ≡ Status.WriteFault → Rose (K.faults sink.old) (K.faults sink.new) }
    ensures write_kept { result ≢ Status.WriteFault → K.faults sink.new ≡ K.faults sink.old }
{
    match execute_generated(alloc, operations, paced(gates, 0)) {
        Ok(text) => match write_whole(sink, &text) {
            Ok(()) => Status::Done,
            Err(_) => Status::WriteFault,
        },
        Err(_) => Status::Memory,
    }
}

/// Runs a trace: reads it to its end, runs it, and writes what is due. `words` are the words of the command line
/// without the program's name: `turns`, `replay` or `image`, each perhaps with `--preempt N` or `--preempt=N`, which sets the pace of the gates.
/// With `turns` one thread takes the turns that the trace asks for; where `--steps` stands behind that word, too, a line for each step follows the report. With `image` it takes them, too, but what is written is the image of the closing machine;
/// with `replay` each vCPU has a thread of its own and takes turns until it is retired, so that call returns only where all are. With
/// `generate N` the trace is the generated one of N operations: it is run as by `turns` at pace 0, and its summary is written. Then, and where
/// the words are others, nothing is read. With `audit`, alone or with a path, an image is read, and whether its words are sound is written; with
/// `draw` a picture of its machine, as a text for Graphviz. That the source is the file of the path is the caller's business. Gate v belongs to vCPU v, and is let go when the call returns; the further ones
/// are let go at once.
pub fn run<R: Threads + Wait + Sync, S: Source, K: Sink>(
    rt: &R,
    alloc: Global,
    words: &[String],
    source: &mut S,
    sink: &mut K,
    gates: Vec<Box<dyn Preempt + Send>>,
) -> Status
    requires gates { 16 ≤ vec_len gates }

    // Which bytes were taken, what they spell, and what was written of the text that is due for it.
    ensures outcome { OutcomeBy (words_ask (map string_bytes words.now)) (map policy gates.items) (S.left source.old) (S.left source.new) (K.taken sink.old) (K.taken sink.new) result }

    // Where nothing is to be read, the source stays as it was.
    ensures unread { reads (words_ask (map string_bytes words.now)) ≡ false → (S.left source.new ≡ S.left source.old) × (S.faults source.new ≡ S.faults source.old) }

    // The words are refused exactly where they ask for nothing.
    ensures words { (result ≡ Status.BadWords) ↔ (words_ask (map string_bytes words.now) ≡ None) }

    // A fault is answered only where its object counted one in this call, and no other answer hides one.
    ensures read { result ≡ Status.ReadFault → Rose (S.faults source.old) (S.faults source.new) }
    ensures write { result ≡ Status.WriteFault → Rose (K.faults sink.old) (K.faults sink.new) }
    ensures read_kept { result ≢ Status.ReadFault → S.faults source.new ≡ S.faults source.old }
    ensures write_kept { result ≢ Status.WriteFault → K.faults sink.new ≡ K.faults sink.old }
{
    match asked_of(alloc, words) {
        Ok(Some(Asked::Run { manner, pace })) => {
            let gates = paced(gates, pace);
            match manner {
                Manner::Turns => run_with(&InTurns, alloc, source, sink, gates),
                Manner::Replay => run_with(&InThreads { rt }, alloc, source, sink, gates),
            }
        }
        Ok(Some(Asked::Steps { pace })) => {
            run_with(&Telling, alloc, source, sink, paced(gates, pace))
        }
        Ok(Some(Asked::Image { pace })) => {
            run_with(&Imaging, alloc, source, sink, paced(gates, pace))
        }
        Ok(Some(Asked::Generate { operations })) => run_generated(alloc, operations, sink, gates),
        Ok(Some(Asked::Audit)) => show_what_is_read(Showing::Line, alloc, source, sink),
        Ok(Some(Asked::Draw)) => show_what_is_read(Showing::Drawn, alloc, source, sink),
        Ok(None) => Status::BadWords,
        Err(_) => Status::Memory,
    }
}

/// The same without threads: `replay` is no word that it knows. Every call returns.
pub fn run_serial<S: Source, K: Sink>(
    alloc: Global,
    words: &[String],
    source: &mut S,
    sink: &mut K,
    gates: Vec<Box<dyn Preempt + Send>>,
) -> Status
    requires gates { 16 ≤ vec_len gates }
    ensures outcome { OutcomeBy (serial_of (words_ask (map string_bytes words.now))) (map policy gates.items) (S.left source.old) (S.left source.new) (K.taken sink.old) (K.taken sink.new) result }
    ensures words { result ≡ Status.BadWords → serial_of (words_ask (map string_bytes words.now)) ≡ None }
    ensures known { serial_of (words_ask (map string_bytes words.now)) ≡ None → (result ≡ Status.BadWords) ⊎ (result ≡ Status.Memory) }
    ensures unknown { words_ask (map string_bytes words.now) ≡ None → result ≡ Status.BadWords }
    ensures unread { reads (serial_of (words_ask (map string_bytes words.now))) ≡ false → (S.left source.new ≡ S.left source.old) × (S.faults source.new ≡ S.faults source.old) }
    ensures read { result ≡ Status.ReadFault → Rose (S.faults source.old) (S.faults source.new) }
    ensures write { result ≡ Status.WriteFault → Rose (K.faults sink.old) (K.faults sink.new) }
    ensures read_kept { result ≢ Status.ReadFault → S.faults source.new ≡ S.faults source.old }
    ensures write_kept { result ≢ Status.WriteFault → K.faults sink.new ≡ K.faults sink.old }
{
    match asked_of(alloc, words) {
        Ok(Some(asked)) => match asked {
            Asked::Run {
                manner: Manner::Turns,
                pace,
            } => run_with(&InTurns, alloc, source, sink, paced(gates, pace)),
            Asked::Run {
                manner: Manner::Replay,
                ..
            } => Status::BadWords,
            Asked::Steps { pace } => run_with(&Telling, alloc, source, sink, paced(gates, pace)),
            Asked::Image { pace } => run_with(&Imaging, alloc, source, sink, paced(gates, pace)),
            Asked::Generate { operations } => run_generated(alloc, operations, sink, gates),
            Asked::Audit => show_what_is_read(Showing::Line, alloc, source, sink),
            Asked::Draw => show_what_is_read(Showing::Drawn, alloc, source, sink),
        },
        Ok(None) => Status::BadWords,
        Err(_) => Status::Memory,
    }
}
