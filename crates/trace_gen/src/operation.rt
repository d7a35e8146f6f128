//! One operation, by its number.

ghost use Rattle.std.specs.Prelude.{◌≡◌, IfOk};
ghost use Rattle.trace_gen.specs.Generated.{update_with, renumbering as renumbering_lem, pinning as pinning_lem, table_of, entry_address, mapping as mapping_lem, unmapping as unmapping_lem, memory_with, generated_op};

use std::alloc::{AllocError, Global};
use xp_words::{Call, ExtList, ExtOp, Numbers, Op, Pair, Pairs};

fn update(ptr: u64, val: u64) -> Op
    ensures { result ≡ update_with ptr val }
{
    Op::One {
        call: Call::Mmu {
            foreign: 0x7ff0,
            pairs: Pairs::one(Pair { ptr, val }),
        },
    }
}

fn renumbering(round: u32) -> Op
    ensures { result ≡ renumbering_lem round }
{
    update(u64::from(round % 32) * 4096 + 1, u64::from(round))
}

fn table(round: u32) -> u64
    ensures { result ≡ table_of round }
{
    32 + u64::from(round % 32)
}

fn pinning(alloc: Global, round: u32) -> Result<Op, AllocError>
    ensures { IfOk result (λ op. op ≡ pinning_lem round) }
{
    let element = ExtOp {
        command: 0,
        first: table(round),
        second: 0,
    };
    let list = ExtList::new(Vec::from_array(alloc, [element])?);
    Ok(Op::One {
        call: Call::Ext { list },
    })
}

fn entry(round: u32) -> u64
    ensures { result ≡ entry_address round }
{
    table(round) * 4096 + 8 * u64::from(round % 512)
}

fn mapping(round: u32) -> Op
    ensures { result ≡ mapping_lem round }
{
    update(entry(round), (64 + u64::from(round % 64)) * 4096 + 3)
}

fn unmapping(round: u32) -> Op
    ensures { result ≡ unmapping_lem round }
{
    update(entry(round), 0)
}

fn memory(alloc: Global, command: u64, item: u64) -> Result<Op, AllocError>
    ensures { IfOk result (λ op. op ≡ memory_with command item) }
{
    let items = Numbers::new(Vec::from_array(alloc, [item])?);
    Ok(Op::One {
        call: Call::Mem {
            command,
            order: 0,
            items,
        },
    })
}

/// Operation `number` of a generated trace, from 0 on.
#[tactic(auto, unfolding(crate::specs::Generated::generated_op))]
pub(crate) fn operation(alloc: Global, number: u32) -> Result<Op, AllocError>
    ensures { IfOk result (λ op. op ≡ generated_op number) }
{
    let round = number / 6;
    match number % 6 {
        0 => Ok(renumbering(round)),
        1 => pinning(alloc, round),
        2 => Ok(mapping(round)),
        3 => Ok(unmapping(round)),
        4 => memory(alloc, 1, 128 + u64::from(round % 64)),
        _ => memory(alloc, 6, u64::from(round)),
    }
}
