ghost use Rattle.std.specs.Prelude.{◌≡◌};
ghost use Rattle.trace_lines.specs.Steps.{Gives};
ghost use Rattle.trace_lines.specs.Grammar.{calls_of, multi_of, next_base, read_of, write_of, touch_ldt_of, destroy_of, grant_of, revoke_of, ptwr_of, xchg_of, newer_by, other_by, one_by, operation_by, operation_of};

use crate::call::{Hypercall, read_call, read_call_of, read_hypercall, read_numbers};
use crate::fault::LineError;
use crate::words::Words;
use std::alloc::Global;
use xp_words::{CallList, Numbers, Op};

fn calls(alloc: Global, words: &mut Words<'_>) -> Result<CallList, LineError>
    ensures { Gives (λ l. l) result (calls_of words.old) }
{
    let mut list = Vec::new(alloc);
    'calls: loop {
        match words.split_call() {
            None => {
                list.push(read_call(alloc, words)?)?;
                return Ok(CallList::new(list));
            }
            Some((mut part, behind)) => {
                list.push(read_call(alloc, &mut part)?)?;
                *words = behind;
            }
        }
    }
}

// Whether the user's base is meant, and not the kernel's.
#[tactic(auto, unfolding(crate::specs::Grammar::next_base))]
fn is_user(words: &mut Words<'_>) -> Result<bool, LineError>
    ensures { Gives (λ b. (b, words.new)) result (next_base words.old) }
{
    let word = words.word()?;
    if word == b"k".as_slice() {
        return Ok(false);
    }
    if word == b"u".as_slice() {
        return Ok(true);
    }
    Err(LineError::LINE)
}

#[tactic(auto, unfolding(crate::specs::Grammar::read_of))]
fn read(words: &mut Words<'_>) -> Result<Op, LineError>
    ensures { Gives (λ o. o) result (read_of words.old) }
{
    let user = is_user(words)?;
    let va = words.number()?;
    words.finish()?;
    Ok(Op::Read { user, va })
}

#[tactic(auto, unfolding(crate::specs::Grammar::write_of))]
fn write(words: &mut Words<'_>) -> Result<Op, LineError>
    ensures { Gives (λ o. o) result (write_of words.old) }
{
    let user = is_user(words)?;
    let va = words.number()?;
    let val = words.number()?;
    words.finish()?;
    Ok(Op::Write { user, va, val })
}

#[tactic(auto, unfolding(crate::specs::Grammar::touch_ldt_of))]
fn touch_ldt(words: &mut Words<'_>) -> Result<Op, LineError>
    ensures { Gives (λ o. o) result (touch_ldt_of words.old) }
{
    let page = words.number()?;
    words.finish()?;
    Ok(Op::TouchLdt { page })
}

#[tactic(auto, unfolding(crate::specs::Grammar::destroy_of))]
fn destroy(words: &mut Words<'_>) -> Result<Op, LineError>
    ensures { Gives (λ o. o) result (destroy_of words.old) }
{
    let domain = words.number()?;
    words.finish()?;
    Ok(Op::Destroy { domain })
}

#[tactic(auto, unfolding(crate::specs::Grammar::grant_of))]
fn grant(words: &mut Words<'_>) -> Result<Op, LineError>
    ensures { Gives (λ o. o) result (grant_of words.old) }
{
    let to = words.number()?;
    let over = words.number()?;
    words.finish()?;
    Ok(Op::Grant { to, over })
}

#[tactic(auto, unfolding(crate::specs::Grammar::revoke_of))]
fn revoke(words: &mut Words<'_>) -> Result<Op, LineError>
    ensures { Gives (λ o. o) result (revoke_of words.old) }
{
    let to = words.number()?;
    let over = words.number()?;
    words.finish()?;
    Ok(Op::Revoke { to, over })
}

#[tactic(auto, unfolding(crate::specs::Grammar::ptwr_of))]
fn ptwr(words: &mut Words<'_>) -> Result<Op, LineError>
    ensures { Gives (λ o. o) result (ptwr_of words.old) }
{
    let user = is_user(words)?;
    let va = words.number()?;
    let val = words.number()?;
    words.finish()?;
    Ok(Op::Ptwr { user, va, val })
}

#[tactic(auto, unfolding(crate::specs::Grammar::xchg_of))]
fn xchg(alloc: Global, words: &mut Words<'_>) -> Result<Op, LineError>
    ensures { Gives (λ o. o) result (xchg_of words.old) }
{
    let first = words.number()?;
    let from = words.number()?;
    let to = words.number()?;
    let items = read_numbers(alloc, words)?;
    Ok(Op::Xchg {
        first,
        from,
        to,
        items: Numbers::new(items),
    })
}

#[tactic(auto, unfolding(crate::specs::Grammar::multi_of))]
fn multi(alloc: Global, words: &mut Words<'_>) -> Result<Op, LineError>
    ensures { Gives (λ o. o) result (multi_of words.old) }
{
    let calls = calls(alloc, words)?;
    Ok(Op::Multi { calls })
}

// The operations that a trace of version 2 alone has.
#[tactic(auto, unfolding(crate::specs::Grammar::newer_by))]
fn newer(alloc: Global, name: &[u8], words: &mut Words<'_>) -> Result<Op, LineError>
    ensures { Gives (λ o. o) result (newer_by name.now words.old) }
{
    if name == b"ptwr".as_slice() {
        return ptwr(words);
    }
    if name == b"xchg".as_slice() {
        return xchg(alloc, words);
    }
    if name == b"grant".as_slice() {
        return grant(words);
    }
    if name == b"revoke".as_slice() {
        return revoke(words);
    }
    Err(LineError::LINE)
}

// The operations that are no call.
#[tactic(auto, unfolding(crate::specs::Grammar::other_by))]
fn other(alloc: Global, version: u8, name: &[u8], words: &mut Words<'_>) -> Result<Op, LineError>
    ensures { Gives (λ o. o) result (other_by version name.now words.old) }
{
    if name == b"multi".as_slice() {
        return multi(alloc, words);
    }
    if name == b"read".as_slice() {
        return read(words);
    }
    if name == b"write".as_slice() {
        return write(words);
    }
    if name == b"ldt".as_slice() {
        return touch_ldt(words);
    }
    if name == b"destroy".as_slice() {
        return destroy(words);
    }
    if version == 2 {
        return newer(alloc, name, words);
    }
    Err(LineError::LINE)
}

fn one(alloc: Global, hypercall: Hypercall, words: &mut Words<'_>) -> Result<Op, LineError>
    ensures { Gives (λ c. c) result (one_by hypercall words.old) }
{
    let call = read_call_of(alloc, hypercall, words)?;
    Ok(Op::One { call })
}

/// The operation that all the words left are.
#[tactic(auto, unfolding(crate::specs::Grammar::operation_of, crate::specs::Grammar::operation_by))]
pub fn read_operation(alloc: Global, version: u8, words: &mut Words<'_>) -> Result<Op, LineError>
    ensures { Gives (λ o. o) result (operation_of version words.old) }
{
    let name = words.word()?;
    match read_hypercall(name) {
        Some(hypercall) => one(alloc, hypercall, words),
        None => other(alloc, version, name, words),
    }
}
