ghost use Rattle.std.specs.Prelude.{◌≡◌};
ghost use Rattle.trace_lines.specs.Steps.{Gives};
ghost use Rattle.trace_lines.specs.Grammar.{header_line_of, frames_line_of, limit_line_of, clock_line_of, domain_line_of, priv_line_of, vcpu_line_of, own_line_of, cell_line_of, op_line_of, turn_line_of, end_line_of, opening_by, line_by, line_of as line_of_lem};

use crate::fault::LineError;
use crate::line::Line;
use crate::operation::read_operation;
use crate::words::Words;
use std::alloc::Global;

#[tactic(auto, unfolding(crate::specs::Grammar::header_line_of))]
fn header(words: &mut Words<'_>) -> Result<Line, LineError>
    ensures { Gives (λ l. l) result (header_line_of words.old) }
{
    let version = words.word()?;
    words.finish()?;
    if version == b"1".as_slice() {
        return Ok(Line::Header { version: 1 });
    }
    if version == b"2".as_slice() {
        return Ok(Line::Header { version: 2 });
    }
    Err(LineError::LINE)
}

#[tactic(auto, unfolding(crate::specs::Grammar::frames_line_of))]
fn frames(words: &mut Words<'_>) -> Result<Line, LineError>
    ensures { Gives (λ l. l) result (frames_line_of words.old) }
{
    let count = words.number()?;
    words.finish()?;
    Ok(Line::Frames { count })
}

#[tactic(auto, unfolding(crate::specs::Grammar::limit_line_of))]
fn limit(words: &mut Words<'_>) -> Result<Line, LineError>
    ensures { Gives (λ l. l) result (limit_line_of words.old) }
{
    let count = words.number()?;
    words.finish()?;
    Ok(Line::Limit { count })
}

#[tactic(auto, unfolding(crate::specs::Grammar::clock_line_of))]
fn clock(words: &mut Words<'_>) -> Result<Line, LineError>
    ensures { Gives (λ l. l) result (clock_line_of words.old) }
{
    let start = words.number()?;
    words.finish()?;
    Ok(Line::Clock { start })
}

#[tactic(auto, unfolding(crate::specs::Grammar::domain_line_of))]
fn domain(words: &mut Words<'_>) -> Result<Line, LineError>
    ensures { Gives (λ l. l) result (domain_line_of words.old) }
{
    let limit = words.number()?;
    words.finish()?;
    Ok(Line::Domain { limit })
}

#[tactic(auto, unfolding(crate::specs::Grammar::priv_line_of))]
fn privilege(words: &mut Words<'_>) -> Result<Line, LineError>
    ensures { Gives (λ l. l) result (priv_line_of words.old) }
{
    let domain = words.number()?;
    let over = words.number()?;
    words.finish()?;
    Ok(Line::Priv { domain, over })
}

#[tactic(auto, unfolding(crate::specs::Grammar::vcpu_line_of))]
fn vcpu(words: &mut Words<'_>) -> Result<Line, LineError>
    ensures { Gives (λ l. l) result (vcpu_line_of words.old) }
{
    let domain = words.number()?;
    words.finish()?;
    Ok(Line::Vcpu { domain })
}

#[tactic(auto, unfolding(crate::specs::Grammar::own_line_of))]
fn own(words: &mut Words<'_>) -> Result<Line, LineError>
    ensures { Gives (λ l. l) result (own_line_of words.old) }
{
    let domain = words.number()?;
    let first = words.number()?;
    let count = words.number()?;
    words.finish()?;
    Ok(Line::Own {
        domain,
        first,
        count,
    })
}

#[tactic(auto, unfolding(crate::specs::Grammar::cell_line_of))]
fn cell(words: &mut Words<'_>) -> Result<Line, LineError>
    ensures { Gives (λ l. l) result (cell_line_of words.old) }
{
    let frame = words.number()?;
    let first = words.number()?;
    let count = words.number()?;
    let value = words.number()?;
    words.finish()?;
    Ok(Line::Cell {
        frame,
        first,
        count,
        value,
    })
}

#[tactic(auto, unfolding(crate::specs::Grammar::op_line_of))]
fn op_line(alloc: Global, version: u8, words: &mut Words<'_>) -> Result<Line, LineError>
    ensures { Gives (λ l. l) result (op_line_of version words.old) }
{
    let vcpu = words.number()?;
    let op = read_operation(alloc, version, words)?;
    Ok(Line::Op { vcpu, op })
}

#[tactic(auto, unfolding(crate::specs::Grammar::turn_line_of))]
fn turn(words: &mut Words<'_>) -> Result<Line, LineError>
    ensures { Gives (λ l. l) result (turn_line_of words.old) }
{
    let vcpu = words.number()?;
    let count = words.number()?;
    words.finish()?;
    Ok(Line::Turn { vcpu, count })
}

#[tactic(auto, unfolding(crate::specs::Grammar::end_line_of))]
fn last(words: &mut Words<'_>) -> Result<Line, LineError>
    ensures { Gives (λ l. l) result (end_line_of words.old) }
{
    words.finish()?;
    Ok(Line::End)
}

// The forms that stand in a trace but a few times.
#[tactic(auto, unfolding(crate::specs::Grammar::opening_by))]
fn opening(word: &[u8], words: &mut Words<'_>) -> Result<Line, LineError>
    ensures { Gives (λ l. l) result (opening_by word.now words.old) }
{
    if word == b"vcpu".as_slice() {
        return vcpu(words);
    }
    if word == b"domain".as_slice() {
        return domain(words);
    }
    if word == b"priv".as_slice() {
        return privilege(words);
    }
    if word == b"frames".as_slice() {
        return frames(words);
    }
    if word == b"limit".as_slice() {
        return limit(words);
    }
    if word == b"clock".as_slice() {
        return clock(words);
    }
    if word == b"xen-pv-trace".as_slice() {
        return header(words);
    }
    if word == b"end".as_slice() {
        return last(words);
    }
    Err(LineError::LINE)
}

#[tactic(auto, unfolding(crate::specs::Grammar::line_by))]
fn form(alloc: Global, version: u8, word: &[u8], words: &mut Words<'_>) -> Result<Line, LineError>
    ensures { Gives (λ l. l) result (line_by version word.now words.old) }
{
    if word == b"op".as_slice() {
        return op_line(alloc, version, words);
    }
    if word == b"turn".as_slice() {
        return turn(words);
    }
    if word == b"cell".as_slice() {
        return cell(words);
    }
    if word == b"own".as_slice() {
        return own(words);
    }
    opening(word, words)
}

/// What a line says, without its line feed, in a trace of that version: 1 or 2, or 0 where the first
/// line is still to come.
#[tactic(auto, unfolding(crate::specs::Grammar::line_of, crate::specs::Words::next_word))]
pub fn line_of(alloc: Global, version: u8, line: &[u8]) -> Result<Line, LineError>
    ensures { Gives (λ l. l) result (line_of_lem version line.now) }
{
    let (word, mut words) = Words::first(line);
    form(alloc, version, word, &mut words)
}
