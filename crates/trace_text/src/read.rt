//! Traces from their bytes.

ghost use Rattle.std.specs.Prelude.{◌≡◌, ◌≤◌, [], ◌∷◌, length, IsTrue, IfOk};
ghost use Rattle.trace_lines.specs.Steps.{Gives};
ghost use Rattle.trace_lines.specs.Grammar.{line_of as line_of_lem};
ghost use Rattle.trace_text.specs.Fronts.{empty_front};
ghost use Rattle.trace_lines.specs.Spelling.{IsSpellable};
ghost use Rattle.trace_text.specs.TraceOf.{step as step_lem, trace_of, trace_from, lines_of, Reads, fault_of};
ghost use Rattle.trace_text.specs.WellFormed.{IsWellFormed};

use crate::part::Part;
use crate::trace::{Trace, TraceFault};
use std::alloc::Global;
use trace_lines::{Cause, Line, LineError, LineFault, What, line_of, split_off};

/// The most bytes that a trace may have.
pub const MAX_BYTES: usize = 67_108_864;

fn fault_at(line: u32, error: LineError) -> TraceFault
    ensures { result ≡ fault_of line error }
{
    match error {
        LineError::Memory => TraceFault::Memory,
        LineError::At(LineFault::Bad(cause)) => TraceFault::Bad { line, cause },
        LineError::At(LineFault::Passed { what, number }) => TraceFault::Large {
            line,
            what,
            number,
        },
    }
}

fn read_line(alloc: Global, version: u8, line: &[u8]) -> Result<Line, LineError>
    ensures gives { Gives (λ l. l) result (line_of_lem version line.now) }
    ensures known { IfOk result (λ l. IsSpellable version l) }
{
    line_of(alloc, version, line)
}

// One more line.
#[tactic(auto, unfolding(crate::specs::TraceOf::step))]
fn step(alloc: Global, part: &mut Part, line: &[u8]) -> Result<(), LineError>
    ensures { Gives (λ _. part.new) result (step_lem part.old line.now) }
{
    if part.is_ended() {
        return Err(LineError::At(LineFault::Bad(Cause::End)));
    }
    match line {
        [b'#', ..] => Ok(()),
        _ => {
            let line = read_line(alloc, part.version(), line)?;
            part.add(alloc, line)
        }
    }
}

// What is left behind the last line feed.
#[tactic(auto, unfolding(crate::specs::TraceOf::trace_from))]
fn finish(part: Part, number: u32, rest: &[u8]) -> Result<Trace, TraceFault>
    ensures reads { Reads result (trace_from part number (rest.now ∷ [])) }
    ensures well { IfOk result (λ t. IsWellFormed t) }
{
    if part.is_ended() && rest.is_empty() {
        return Ok(part.into_trace());
    }
    Err(TraceFault::Bad {
        line: number,
        cause: Cause::End,
    })
}

fn read_lines(alloc: Global, bytes: &[u8]) -> Result<Trace, TraceFault>
    requires { length bytes.now ≤ MAX_BYTES }
    ensures reads { Reads result (trace_from empty_front 1 (lines_of bytes.now)) }
    ensures well { IfOk result (λ t. IsWellFormed t) }
{
    let mut part = Part::new(alloc);
    let mut rest = bytes;
    let mut number = 1u32;
    'lines: loop {
        match split_off(b'\n', rest) {
            None => return finish(part, number, rest),
            Some((line, after)) => {
                if let Err(error) = step(alloc, &mut part, line) {
                    return Err(fault_at(number, error));
                }
                rest = after;
                number += 1;
            }
        }
    }
}

/// The trace that the bytes spell, or their first fault.
#[tactic(auto, unfolding(crate::specs::TraceOf::trace_of))]
pub fn read_trace(alloc: Global, bytes: &[u8]) -> Result<Trace, TraceFault>
    ensures reads { Reads result (trace_of bytes.now) }
    ensures well { IfOk result (λ t. IsWellFormed t) }
{
    if bytes.len() > MAX_BYTES {
        return Err(TraceFault::Large {
            line: 0,
            what: What::Bytes,
            number: 67_108_865,
        });
    }
    read_lines(alloc, bytes)
}
