ghost use Rattle.std.specs.Prelude.{◌≡◌, ◌++◌, ◌∷◌, [], OnOk, string_bytes, codes};
ghost use Rattle.std.specs.List.{flat_map};
ghost use Rattle.trace_lines.specs.Spelling.{spaced, number_words, pair_words, triple_words, call_words, calls_words, base_word, op_words, line_text};
ghost use Rattle.trace_lines.specs.declared.line.Line.TheVariants as lines;

use std::alloc::AllocError;
use xp_words::{Call, ExtOp, Op, Pair};

/// The first line, of a trace of that version.
#[tactic(auto, unfolding(crate::specs::Spelling::line_text))]
pub fn put_header(out: &mut String, version: u8) -> Result<(), AllocError>
    ensures { OnOk result (string_bytes out.new ≡ string_bytes out.old ++ (line_text (lines.Header version) ++ 10 ∷ [])) }
{
    writeln!(out, "xen-pv-trace {version}")
}

/// The number of frames.
#[tactic(auto, unfolding(crate::specs::Spelling::line_text))]
pub fn put_frames(out: &mut String, count: u64) -> Result<(), AllocError>
    ensures { OnOk result (string_bytes out.new ≡ string_bytes out.old ++ (line_text (lines.Frames count) ++ 10 ∷ [])) }
{
    writeln!(out, "frames {count}")
}

/// The greatest count of a frame.
#[tactic(auto, unfolding(crate::specs::Spelling::line_text))]
pub fn put_limit(out: &mut String, count: u64) -> Result<(), AllocError>
    ensures { OnOk result (string_bytes out.new ≡ string_bytes out.old ++ (line_text (lines.Limit count) ++ 10 ∷ [])) }
{
    writeln!(out, "limit {count}")
}

/// The clock at the opening.
#[tactic(auto, unfolding(crate::specs::Spelling::line_text))]
pub fn put_clock(out: &mut String, start: u64) -> Result<(), AllocError>
    ensures { OnOk result (string_bytes out.new ≡ string_bytes out.old ++ (line_text (lines.Clock start) ++ 10 ∷ [])) }
{
    writeln!(out, "clock {start}")
}

/// One more domain, with its page limit.
#[tactic(auto, unfolding(crate::specs::Spelling::line_text))]
pub fn put_domain(out: &mut String, limit: u64) -> Result<(), AllocError>
    ensures { OnOk result (string_bytes out.new ≡ string_bytes out.old ++ (line_text (lines.Domain limit) ++ 10 ∷ [])) }
{
    writeln!(out, "domain {limit}")
}

/// Domain `domain` has foreign privilege over domain `over`.
#[tactic(auto, unfolding(crate::specs::Spelling::line_text))]
pub fn put_priv(out: &mut String, domain: u64, over: u64) -> Result<(), AllocError>
    ensures { OnOk result (string_bytes out.new ≡ string_bytes out.old ++ (line_text (lines.Priv domain over) ++ 10 ∷ [])) }
{
    writeln!(out, "priv {domain} {over}")
}

/// One more vCPU, of that domain.
#[tactic(auto, unfolding(crate::specs::Spelling::line_text))]
pub fn put_vcpu(out: &mut String, domain: u64) -> Result<(), AllocError>
    ensures { OnOk result (string_bytes out.new ≡ string_bytes out.old ++ (line_text (lines.Vcpu domain) ++ 10 ∷ [])) }
{
    writeln!(out, "vcpu {domain}")
}

/// Frames that a domain owns at the opening.
#[tactic(auto, unfolding(crate::specs::Spelling::line_text))]
pub fn put_own(out: &mut String, domain: u64, first: u64, count: u64) -> Result<(), AllocError>
    ensures { OnOk result (string_bytes out.new ≡ string_bytes out.old ++ (line_text (lines.Own domain first count) ++ 10 ∷ [])) }
{
    writeln!(out, "own {domain} {first} {count}")
}

/// Cells of a frame, and what they hold at the opening.
#[tactic(auto, unfolding(crate::specs::Spelling::line_text))]
pub fn put_cell(
    out: &mut String,
    frame: u64,
    first: u64,
    count: u64,
    value: u64,
) -> Result<(), AllocError>
    ensures { OnOk result (string_bytes out.new ≡ string_bytes out.old ++ (line_text (lines.Cell frame first count value) ++ 10 ∷ [])) }
{
    writeln!(out, "cell {frame} {first} {count} {value}")
}

/// Turns of one vCPU in a row.
#[tactic(auto, unfolding(crate::specs::Spelling::line_text))]
pub fn put_turn(out: &mut String, vcpu: u64, count: u64) -> Result<(), AllocError>
    ensures { OnOk result (string_bytes out.new ≡ string_bytes out.old ++ (line_text (lines.Turn vcpu count) ++ 10 ∷ [])) }
{
    writeln!(out, "turn {vcpu} {count}")
}

/// The last line.
#[tactic(auto, unfolding(crate::specs::Spelling::line_text))]
pub fn put_end(out: &mut String) -> Result<(), AllocError>
    ensures { OnOk result (string_bytes out.new ≡ string_bytes out.old ++ (line_text lines.End ++ 10 ∷ [])) }
{
    out.push_str("end\n")
}

fn put_numbers(out: &mut String, numbers: &[u64]) -> Result<(), AllocError>
    ensures { OnOk result (string_bytes out.new ≡ string_bytes out.old ++ spaced (number_words numbers.now)) }
{
    for n in numbers {
        write!(out, " {n}")?;
    }
    Ok(())
}

fn put_pairs(out: &mut String, pairs: &[Pair]) -> Result<(), AllocError>
    ensures { OnOk result (string_bytes out.new ≡ string_bytes out.old ++ spaced (pair_words pairs.now)) }
{
    for pair in pairs {
        let ptr = pair.ptr;
        let val = pair.val;
        write!(out, " {ptr} {val}")?;
    }
    Ok(())
}

fn put_triples(out: &mut String, list: &[ExtOp]) -> Result<(), AllocError>
    ensures { OnOk result (string_bytes out.new ≡ string_bytes out.old ++ spaced (triple_words list.now)) }
{
    for op in list {
        let command = op.command;
        let first = op.first;
        let second = op.second;
        write!(out, " {command} {first} {second}")?;
    }
    Ok(())
}

// A call, with a space before each word.
fn put_call(out: &mut String, call: &Call) -> Result<(), AllocError>
    ensures { OnOk result (string_bytes out.new ≡ string_bytes out.old ++ spaced (call_words call.now)) }
{
    match call {
        Call::Mmu { foreign, pairs } => {
            write!(out, " mmu {foreign}")?;
            put_pairs(out, pairs.as_slice())?;
        }
        Call::Ext { list } => {
            out.push_str(" ext")?;
            put_triples(out, list.as_slice())?;
        }
        Call::Va { va, val, flags } => {
            write!(out, " va {va} {val} {flags}")?;
        }
        Call::VaOther {
            va,
            val,
            flags,
            domain,
        } => {
            write!(out, " vaother {va} {val} {flags} {domain}")?;
        }
        Call::Gdt { entries, frames } => {
            write!(out, " gdt {entries}")?;
            put_numbers(out, frames.as_slice())?;
        }
        Call::Desc { address, word } => {
            write!(out, " desc {address} {word}")?;
        }
        Call::Mem {
            command,
            order,
            items,
        } => {
            write!(out, " mem {command} {order}")?;
            put_numbers(out, items.as_slice())?;
        }
    }
    Ok(())
}

// Calls, with a space before each word.
fn put_calls(out: &mut String, calls: &[Call]) -> Result<(), AllocError>
    ensures { OnOk result (string_bytes out.new ≡ string_bytes out.old ++ spaced (calls_words calls.now)) }
{
    match calls.split_first() {
        None => Ok(()),
        Some((first, others)) => {
            put_call(out, first)?;
            put_more_calls(out, others)?;
            Ok(())
        }
    }
}

fn put_more_calls(out: &mut String, calls: &[Call]) -> Result<(), AllocError>
    ensures { OnOk result (string_bytes out.new ≡ string_bytes out.old ++ flat_map (λ c. codes " ;" ++ spaced (call_words c)) calls.now) }
{
    for call in calls {
        out.push_str(" ;")?;
        put_call(out, call)?;
    }
    Ok(())
}

// An operation, with a space before each word.
fn put_operation(out: &mut String, op: &Op) -> Result<(), AllocError>
    ensures { OnOk result (string_bytes out.new ≡ string_bytes out.old ++ spaced (op_words op.now)) }
{
    match op {
        Op::One { call } => {
            put_call(out, call)?;
        }
        Op::Multi { calls } => {
            out.push_str(" multi")?;
            put_calls(out, calls.as_slice())?;
        }
        Op::Read { user, va } => {
            let base = base(*user);
            write!(out, " read {base} {va}")?;
        }
        Op::Write { user, va, val } => {
            let base = base(*user);
            write!(out, " write {base} {va} {val}")?;
        }
        Op::TouchLdt { page } => {
            write!(out, " ldt {page}")?;
        }
        Op::Destroy { domain } => {
            write!(out, " destroy {domain}")?;
        }
        Op::Grant { to, over } => {
            write!(out, " grant {to} {over}")?;
        }
        Op::Revoke { to, over } => {
            write!(out, " revoke {to} {over}")?;
        }
        Op::Ptwr { user, va, val } => {
            let base = base(*user);
            write!(out, " ptwr {base} {va} {val}")?;
        }
        Op::Xchg {
            first,
            from,
            to,
            items,
        } => {
            write!(out, " xchg {first} {from} {to}")?;
            put_numbers(out, items.as_slice())?;
        }
    }
    Ok(())
}

fn base(user: bool) -> &'static str
    ensures { result.now ≡ base_word user }
{
    if user { "u" } else { "k" }
}

/// One more operation of that vCPU.
#[tactic(auto, unfolding(crate::specs::Spelling::line_text))]
pub fn put_op(out: &mut String, vcpu: u64, op: &Op) -> Result<(), AllocError>
    ensures { OnOk result (string_bytes out.new ≡ string_bytes out.old ++ (line_text (lines.Op vcpu op.now) ++ 10 ∷ [])) }
{
    write!(out, "op {vcpu}")?;
    put_operation(out, op)?;
    out.push_str("\n")
}
