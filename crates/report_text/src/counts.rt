ghost use Rattle.std.specs.Prelude.{◌≡◌, ◌++◌, length, OnOk, IfOk, string_bytes, count_by};
ghost use Rattle.xp_words.specs.Places.{sizes_of, size};
ghost use Rattle.report_text.specs.SummaryOf.{is_done as is_done_lem, is_refused as is_refused_lem, lines_with, generated_line, summary_of};

use crate::memory::Memory;
use crate::whole::put_free;
use sparse_words::SparseWords;
use std::alloc::{AllocError, Global};
use xp_words::{Layout, Log, LogLine};

fn is_done(line: &LogLine) -> bool
    ensures { result ≡ is_done_lem line.now }
{
    match line {
        LogLine::Answer { op: _, call, reply } => *call == 0 && reply.refusal.is_none(),
        _ => false,
    }
}

fn is_refused(line: &LogLine) -> bool
    ensures { result ≡ is_refused_lem line.now }
{
    match line {
        LogLine::Answer { op: _, call, reply } => *call == 0 && reply.refusal.is_some(),
        _ => false,
    }
}

fn done_in(lines: &[LogLine]) -> usize
    ensures { result ≡ count_by is_done_lem lines.now }
{
    lines.iter().filter(|line| is_done(line)).count()
}

fn refused_in(lines: &[LogLine]) -> usize
    ensures { result ≡ count_by is_refused_lem lines.now }
{
    lines.iter().filter(|line| is_refused(line)).count()
}

/// How many of the operations were done, and how many were refused. No number of lines is too many for them.
#[derive(Clone, Copy)]
struct Answered {
    done: u128,
    refused: u128,
}

fn answers(logs: &[Log]) -> Answered
    ensures done { result.done ≡ lines_with is_done_lem logs.now }
    ensures refused { result.refused ≡ lines_with is_refused_lem logs.now }
{
    let mut all = Answered {
        done: 0,
        refused: 0,
    };
    for log in logs {
        let lines = log.as_slice();
        all.done += done_in(lines) as u128;
        all.refused += refused_in(lines) as u128;
    }
    all
}

#[tactic(auto, unfolding(crate::specs::SummaryOf::generated_line), using(crate::proofs::Pending::pending_left))]
fn put_answered(out: &mut String, operations: u32, answered: Answered) -> Result<(), AllocError>
    ensures { OnOk result (string_bytes out.new ≡ string_bytes out.old ++ generated_line operations answered.done answered.refused) }
{
    let Answered { done, refused } = answered;
    let unrefused = u128::from(operations).saturating_sub(refused);
    let pending = unrefused.saturating_sub(done);
    writeln!(
        out,
        "generated {operations} ok {done} refused {refused} pending {pending}"
    )
}

/// The text of a summary, for a run of `n` operations: how many of them the logs answer with and without a
/// refusal, how many they do not answer, and how many frames are free. Answers of calls of a `multicall` are not
/// counted. Anyone may call it.
#[tactic(auto, unfolding(crate::specs::SummaryOf::summary_of))]
pub fn summary(
    alloc: Global,
    n: u32,
    layout: &Layout,
    words: &SparseWords,
    logs: &[Log],
) -> Result<Vec<u8>, AllocError>
    requires { length words.now ≡ size (sizes_of layout.now) }
    ensures { IfOk result (λ v. v.items ≡ summary_of n layout.now words.now logs.now) }
{
    let machine = Memory::new(layout, words);
    let mut out = String::new(alloc);
    put_answered(&mut out, n, answers(logs))?;
    put_free(&mut out, &machine)?;
    Ok(out.into_bytes())
}
