ghost use Rattle.std.specs.Prelude.{◌≡◌, ◌++◌, Some, OnOk, string_bytes, codes};
ghost use Rattle.report_text.specs.LogTexts.{refusal_number, refusal_text, step_text, answer_text, log_line, log_lines};

use crate::numbers::{put_hex_digits, put_number};
use crate::words::{KindText, RefText, TypeText};
use std::alloc::AllocError;
use std::fmt;
use xp_words::{LogLine, Refusal, Reply};

fn number(refusal: Refusal) -> u8
    ensures { result ≡ refusal_number refusal }
{
    match refusal {
        Refusal::NoFrame { .. } => 1,
        Refusal::WrongOwner { .. } => 2,
        Refusal::OtherType { .. } => 3,
        Refusal::Reserved { .. } => 4,
        Refusal::CountFull { .. } => 5,
        Refusal::AlreadyPinned { .. } => 6,
        Refusal::NotPinned { .. } => 7,
        Refusal::Slot { .. } => 8,
        Refusal::NotMapped { .. } => 9,
        Refusal::ReadOnly { .. } => 10,
        Refusal::NonCanonical => 11,
        Refusal::NoPrivilege { .. } => 12,
        Refusal::NoDomain => 13,
        Refusal::Dying { .. } => 14,
        Refusal::DomainFull { .. } => 15,
        Refusal::NoFree => 16,
        Refusal::BadRange => 17,
        Refusal::BadDescriptor { .. } => 18,
        Refusal::BadCommand => 19,
        Refusal::Clock { .. } => 20,
        Refusal::BatchLong => 21,
        Refusal::InUse { .. } => 22,
    }
}

/// The name of a refusal and what was found.
#[derive(Clone, Copy)]
struct RefusalText(Refusal);

#[tactic(auto, unfolding(crate::specs::LogTexts::refusal_text))]
impl fmt::Display for RefusalText {
    ghost output = { λ s. Some (refusal_text s.0) };

    fn fmt<W: fmt::Write>(&self, f: &mut fmt::Formatter<W>) -> fmt::Result {
        match self.0 {
            Refusal::NoFrame { frame } => write!(f, "NoFrame frame={frame}"),
            Refusal::WrongOwner { frame, found } => write!(
                f,
                "WrongOwner frame={frame} found={}",
                RefText(found)
            ),
            Refusal::OtherType { frame, want, found } => {
                write!(
                    f,
                    "OtherType frame={frame} want={} found={}",
                    TypeText(want),
                    KindText(found)
                )
            }
            Refusal::Reserved {
                frame,
                index,
                entry,
            } => write!(f, "Reserved frame={frame} index={index} entry=0x{entry:x}"),
            Refusal::CountFull { frame, found } => write!(
                f,
                "CountFull frame={frame} found={}",
                RefText(found)
            ),
            Refusal::AlreadyPinned { found } => write!(
                f,
                "AlreadyPinned found={}",
                KindText(found)
            ),
            Refusal::NotPinned { found } => write!(f, "NotPinned found={}", KindText(found)),
            Refusal::Slot { index } => write!(f, "Slot index={index}"),
            Refusal::NotMapped { level, entry } => write!(
                f,
                "NotMapped level={level} entry=0x{entry:x}"
            ),
            Refusal::ReadOnly { entry } => write!(f, "ReadOnly entry=0x{entry:x}"),
            Refusal::NonCanonical => f.write_str("NonCanonical"),
            Refusal::NoPrivilege { caller, domain } => write!(
                f,
                "NoPrivilege caller={caller} domain={domain}"
            ),
            Refusal::NoDomain => f.write_str("NoDomain"),
            Refusal::Dying { domain, found } => write!(f, "Dying domain={domain} found={found}"),
            Refusal::DomainFull { found } => write!(f, "DomainFull found={found}"),
            Refusal::NoFree => f.write_str("NoFree"),
            Refusal::BadRange => f.write_str("BadRange"),
            Refusal::BadDescriptor { frame, index, word } => {
                write!(
                    f,
                    "BadDescriptor frame={frame} index={index} word=0x{word:x}"
                )
            }
            Refusal::BadCommand => f.write_str("BadCommand"),
            Refusal::Clock { found } => write!(f, "Clock found={found}"),
            Refusal::BatchLong => f.write_str("BatchLong"),
            Refusal::InUse { frame, found } => write!(
                f,
                "InUse frame={frame} found={}",
                RefText(found)
            ),
        }
    }
}

// The operation and the call of a line; call 0 is the operation itself.
#[tactic(auto, unfolding(crate::specs::LogTexts::step_text))]
fn put_step(out: &mut String, op: u32, call: u32) -> Result<(), AllocError>
    ensures { OnOk result (string_bytes out.new ≡ string_bytes out.old ++ step_text op call) }
{
    out.push_str("op ")?;
    put_number(out, u64::from(op))?;
    if call == 0 {
        return Ok(());
    }
    out.push_str(" call ")?;
    put_number(out, u64::from(call))
}

// How an operation or a call ended. Most answers have no refusal, and a push takes less time than a format.
fn put_answer(out: &mut String, reply: Reply) -> Result<(), AllocError>
    ensures { OnOk result (string_bytes out.new ≡ string_bytes out.old ++ (answer_text reply.done reply.value reply.refusal ++ codes "\n")) }
{
    let done = reply.done;
    match reply.refusal {
        None => {
            out.push_str(" ok done ")?;
            put_number(out, u64::from(done))?;
            out.push_str(" value 0x")?;
            put_hex_digits(out, reply.value)?;
            out.push_str("\n")
        }
        Some(refusal) => writeln!(
            out,
            " refused {} done {done} {}",
            number(refusal),
            RefusalText(refusal)
        ),
    }
}

#[tactic(auto, unfolding(crate::specs::LogTexts::log_line))]
fn put_line(out: &mut String, line: LogLine) -> Result<(), AllocError>
    ensures { OnOk result (string_bytes out.new ≡ string_bytes out.old ++ log_line line) }
{
    match line {
        LogLine::Answer { op, call, reply } => {
            put_step(out, op, call)?;
            put_answer(out, reply)
        }
        LogLine::Given {
            op,
            call,
            extent,
            frame,
        } => {
            put_step(out, op, call)?;
            writeln!(out, " given {extent} {frame}")
        }
        LogLine::Left { op, frame, found } => writeln!(
            out,
            "op {op} left {frame} refs {}",
            RefText(found)
        ),
    }
}

/// Appends the lines of a vCPU's log, in order.
#[tactic(auto, unfolding(crate::specs::LogTexts::log_lines))]
pub fn put_lines(out: &mut String, lines: &[LogLine]) -> Result<(), AllocError>
    ensures { OnOk result (string_bytes out.new ≡ string_bytes out.old ++ log_lines lines.now) }
{
    for line in lines {
        put_line(out, *line)?;
    }
    Ok(())
}
