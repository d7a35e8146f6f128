ghost use Rattle.std.specs.Prelude.{◌≡◌, ◌∷◌, [], map, IfOk};
ghost use Rattle.trace_lines.specs.Steps.{Gives, with_front};
ghost use Rattle.trace_lines.specs.Grammar.{numbers_of, triple_from, spelled_pairs, next_pair, triples_from, mmu_of, ext_of, va_of, va_other_of, gdt_of, desc_of, mem_of, hypercall_of, call_by, call_of};

use crate::fault::LineError;
use crate::words::Words;
use std::alloc::{AllocError, Global};
use xp_words::{Call, ExtList, ExtOp, Numbers, Pair, Pairs};

/// The hypercalls that may also be calls of a `multicall`.
#[derive(Clone, Copy)]
pub enum Hypercall {
    Mmu,
    Ext,
    Va,
    VaOther,
    Gdt,
    Desc,
    Mem,
}

/// The hypercall by its word in a trace. The other operations of a script have words of their own.
#[tactic(auto, unfolding(crate::specs::Grammar::hypercall_of))]
pub fn read_hypercall(name: &[u8]) -> Option<Hypercall>
    ensures { result ≡ hypercall_of name.now }
{
    if name == b"mmu".as_slice() {
        return Some(Hypercall::Mmu);
    }
    if name == b"ext".as_slice() {
        return Some(Hypercall::Ext);
    }
    if name == b"mem".as_slice() {
        return Some(Hypercall::Mem);
    }
    if name == b"va".as_slice() {
        return Some(Hypercall::Va);
    }
    if name == b"vaother".as_slice() {
        return Some(Hypercall::VaOther);
    }
    if name == b"gdt".as_slice() {
        return Some(Hypercall::Gdt);
    }
    if name == b"desc".as_slice() {
        return Some(Hypercall::Desc);
    }
    None
}

/// All the words that are left, as numbers; each is one.
pub fn read_numbers(alloc: Global, words: &mut Words<'_>) -> Result<Vec<u64>, LineError>
    ensures { Gives (λ v. v.items) result (numbers_of words.old) }
{
    let mut items = Vec::new(alloc);
    'words: while !words.is_done() {
        items.push(words.number()?)?;
    }
    Ok(items)
}

#[tactic(auto, unfolding(crate::specs::Grammar::next_pair))]
fn pair(words: &mut Words<'_>) -> Result<Pair, LineError>
    ensures { Gives (λ p. (p, words.new)) result (next_pair words.old) }
{
    let ptr = words.number()?;
    let val = words.number()?;
    Ok(Pair { ptr, val })
}

// All the words that are left, as pairs behind a first one.
fn pairs_behind(alloc: Global, first: Pair, words: &mut Words<'_>) -> Result<Pairs, LineError>
    ensures { Gives (λ p. p) result (with_front (first ∷ []) (spelled_pairs words.old)) }
{
    let mut items = vec![in alloc; first]?;
    'words: while !words.is_done() {
        items.push(pair(words)?)?;
    }
    Ok(Pairs::new(items))
}

// All the words that are left, as pairs; most lists have one.
fn pairs(alloc: Global, words: &mut Words<'_>) -> Result<Pairs, LineError>
    ensures { Gives (λ p. p) result (spelled_pairs words.old) }
{
    if words.is_done() {
        return Ok(Pairs::new(Vec::new(alloc)));
    }
    let first = pair(words)?;
    if words.is_done() {
        return Ok(Pairs::one(first));
    }
    pairs_behind(alloc, first, words)
}

fn triples(alloc: Global, numbers: &[u64]) -> Result<ExtList, LineError>
    ensures { Gives (λ l. l) result (triples_from numbers.now) }
{
    let (chunks, odd) = numbers.as_chunks::<3>();
    if !odd.is_empty() {
        return Err(LineError::LINE);
    }
    let items = triple_items(alloc, chunks)?;
    Ok(ExtList::new(items))
}

fn triple_items(alloc: Global, chunks: &[[u64; 3]]) -> Result<Vec<ExtOp>, AllocError>
    ensures { IfOk result (λ v. v.items ≡ map triple_from chunks.now) }
{
    chunks
        .iter()
        .map(|[command, first, second]| ExtOp {
            command: *command,
            first: *first,
            second: *second,
        })
        .collect(alloc)
}

#[tactic(auto, unfolding(crate::specs::Grammar::mmu_of))]
fn mmu(alloc: Global, words: &mut Words<'_>) -> Result<Call, LineError>
    ensures { Gives (λ c. c) result (mmu_of words.old) }
{
    let foreign = words.number()?;
    let pairs = pairs(alloc, words)?;
    Ok(Call::Mmu { foreign, pairs })
}

#[tactic(auto, unfolding(crate::specs::Grammar::ext_of))]
fn ext(alloc: Global, words: &mut Words<'_>) -> Result<Call, LineError>
    ensures { Gives (λ c. c) result (ext_of words.old) }
{
    let numbers = read_numbers(alloc, words)?;
    let list = triples(alloc, numbers.as_slice())?;
    Ok(Call::Ext { list })
}

#[tactic(auto, unfolding(crate::specs::Grammar::va_of))]
fn va(words: &mut Words<'_>) -> Result<Call, LineError>
    ensures { Gives (λ c. c) result (va_of words.old) }
{
    let va = words.number()?;
    let val = words.number()?;
    let flags = words.number()?;
    words.finish()?;
    Ok(Call::Va { va, val, flags })
}

#[tactic(auto, unfolding(crate::specs::Grammar::va_other_of))]
fn va_other(words: &mut Words<'_>) -> Result<Call, LineError>
    ensures { Gives (λ c. c) result (va_other_of words.old) }
{
    let va = words.number()?;
    let val = words.number()?;
    let flags = words.number()?;
    let domain = words.number()?;
    words.finish()?;
    Ok(Call::VaOther {
        va,
        val,
        flags,
        domain,
    })
}

#[tactic(auto, unfolding(crate::specs::Grammar::gdt_of))]
fn gdt(alloc: Global, words: &mut Words<'_>) -> Result<Call, LineError>
    ensures { Gives (λ c. c) result (gdt_of words.old) }
{
    let entries = words.number()?;
    let frames = read_numbers(alloc, words)?;
    Ok(Call::Gdt {
        entries,
        frames: Numbers::new(frames),
    })
}

#[tactic(auto, unfolding(crate::specs::Grammar::desc_of))]
fn desc(words: &mut Words<'_>) -> Result<Call, LineError>
    ensures { Gives (λ c. c) result (desc_of words.old) }
{
    let address = words.number()?;
    let word = words.number()?;
    words.finish()?;
    Ok(Call::Desc { address, word })
}

#[tactic(auto, unfolding(crate::specs::Grammar::mem_of))]
fn mem(alloc: Global, words: &mut Words<'_>) -> Result<Call, LineError>
    ensures { Gives (λ c. c) result (mem_of words.old) }
{
    let command = words.number()?;
    let order = words.number()?;
    let items = read_numbers(alloc, words)?;
    Ok(Call::Mem {
        command,
        order,
        items: Numbers::new(items),
    })
}

/// The call of that name, with all the words that are left.
#[tactic(auto, unfolding(crate::specs::Grammar::call_by))]
pub fn read_call_of(
    alloc: Global,
    hypercall: Hypercall,
    words: &mut Words<'_>,
) -> Result<Call, LineError>
    ensures { Gives (λ c. c) result (call_by hypercall words.old) }
{
    match hypercall {
        Hypercall::Mmu => mmu(alloc, words),
        Hypercall::Ext => ext(alloc, words),
        Hypercall::Va => va(words),
        Hypercall::VaOther => va_other(words),
        Hypercall::Gdt => gdt(alloc, words),
        Hypercall::Desc => desc(words),
        Hypercall::Mem => mem(alloc, words),
    }
}

/// The call that all the words left are.
#[tactic(auto, unfolding(crate::specs::Grammar::call_of))]
pub fn read_call(alloc: Global, words: &mut Words<'_>) -> Result<Call, LineError>
    ensures { Gives (λ c. c) result (call_of words.old) }
{
    let name = words.word()?;
    match read_hypercall(name) {
        None => Err(LineError::LINE),
        Some(hypercall) => read_call_of(alloc, hypercall, words),
    }
}
