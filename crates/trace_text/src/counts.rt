//! What an operation counts towards the limits of a trace.

ghost use Rattle.std.specs.Prelude.{◌≡◌, ◌≤◌, sum_by, take};
ghost use Rattle.trace_text.specs.Counted.{numbers_in_call, numbers_in, extents_in_call, extents_in, destroys_in};
ghost use Rattle.trace_text.specs.Fronts.{capped};

use xp_words::{Call, CallList, Op};

#[tactic(auto, unfolding(crate::specs::Counted::numbers_in_call))]
fn numbers_of_call(call: &Call) -> u64
    ensures { result ≡ capped (numbers_in_call call.now) }
{
    match call {
        Call::Mmu { foreign: _, pairs } => 2 * pairs.len() as u64,
        Call::Ext { list } => (list.len() as u64).saturating_mul(3),
        Call::Gdt { entries: _, frames } => frames.len() as u64,
        Call::Mem {
            command: _,
            order: _,
            items,
        } => items.len() as u64,
        Call::Va { .. } | Call::VaOther { .. } | Call::Desc { .. } => 0,
    }
}

fn numbers_of_calls(calls: &CallList) -> u64
    ensures { result ≡ capped (sum_by numbers_in_call calls.now) }
{
    let mut total = 0u64;
    for call in calls.as_slice() {
        total = total.saturating_add(numbers_of_call(call));
    }
    total
}

/// The numbers in the lists of the operation.
#[tactic(auto, unfolding(crate::specs::Counted::numbers_in))]
pub(crate) fn numbers_of(op: &Op) -> u64
    ensures { result ≡ capped (numbers_in op.now) }
{
    match op {
        Op::One { call } => numbers_of_call(call),
        Op::Multi { calls } => numbers_of_calls(calls),
        Op::Xchg {
            first: _,
            from: _,
            to: _,
            items,
        } => items.len() as u64,
        _ => 0,
    }
}

#[tactic(auto, unfolding(crate::specs::Counted::extents_in_call))]
fn extents_of_call(call: &Call) -> u64
    ensures { result ≡ capped (extents_in_call call.now) }
{
    match call {
        Call::Mem {
            command,
            order: _,
            items,
        } => match items.as_slice() {
            [extents] if *command % 64 == 0 => *extents,
            items => items.len() as u64,
        },
        _ => 0,
    }
}

fn extents_of_calls(calls: &CallList) -> u64
    ensures { result ≡ capped (sum_by extents_in_call calls.now) }
{
    let mut total = 0u64;
    for call in calls.as_slice() {
        total = total.saturating_add(extents_of_call(call));
    }
    total
}

/// The extents that the operation asks for.
#[tactic(auto, unfolding(crate::specs::Counted::extents_in))]
pub(crate) fn extents_of(op: &Op) -> u64
    ensures { result ≡ capped (extents_in op.now) }
{
    match op {
        Op::One { call } => extents_of_call(call),
        Op::Multi { calls } => extents_of_calls(calls),
        Op::Xchg {
            first: _,
            from: _,
            to: _,
            items,
        } => items.len() as u64,
        _ => 0,
    }
}

/// 1 where the operation destroys a domain.
#[tactic(auto, unfolding(crate::specs::Counted::destroys_in))]
pub(crate) fn destroys_of(op: &Op) -> u32
    ensures destroys { result ≡ destroys_in op.now }
    ensures few { result ≤ 1 }
{
    match op {
        Op::Destroy { domain: _ } => 1,
        _ => 0,
    }
}
