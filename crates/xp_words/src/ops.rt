ghost use Rattle.std.specs.Prelude.{◌≡◌, ◌<◌, ◌^◌, ◌∷◌, ◌↔◌, [], length, IsTrue};

use crate::item_list::ItemList;
use std::marker::Model;
use std::slice::from_ref;

/// One element of `mmu_update` (`struct mmu_update` of `xen.h`): the low two bits of `ptr` are the command.
#[derive(Clone, Copy, Debug, PartialEq, Eq)]
pub struct Pair {
    pub ptr: u64,
    pub val: u64,
}

/// One element of `mmuext_op` (`struct mmuext_op` of `xen.h`): a command and its two arguments.
#[derive(Clone, Copy, Debug, PartialEq, Eq)]
pub struct ExtOp {
    pub command: u64,
    pub first: u64,
    pub second: u64,
}

// Where the items of a list stand: most lists have one, which needs no memory of its own.
#[derive(Drop)]
enum PairStore {
    One { item: Pair },
    Many { items: Vec<Pair> },
}

/// The pairs of one `mmu_update`, in order. Contracts see the list of its items.
#[derive(Drop)]
pub struct Pairs {
    store: PairStore,
}

impl Model for Pairs {
    ghost use Rattle.std.specs.Prelude.{List};
    ghost use Rattle.xp_words.specs.declared.ops.Pair.{Pair};
    ghost use Rattle.xp_words.specs.PairStores.{stored};

    ghost Value = { List Pair };

    ghost view = { λ s. stored s.store };
}

impl Pairs {
    pub fn new(items: Vec<Pair>) -> Pairs
        ensures { result ≡ items.items }
    {
        Pairs {
            store: PairStore::Many { items },
        }
    }

    /// A list of one item. It needs no memory.
    pub fn one(item: Pair) -> Pairs
        ensures { result ≡ item ∷ [] }
    {
        Pairs {
            store: PairStore::One { item },
        }
    }

    pub fn as_slice(&self) -> &[Pair]
        ensures { result.now ≡ self.now }
    {
        match &self.store {
            PairStore::One { item } => from_ref(item),
            PairStore::Many { items } => items.as_slice(),
        }
    }

    pub fn len(&self) -> usize
        ensures value { result ≡ length self.now }
        ensures room { result < 2 ^ 63 }
    {
        self.as_slice().len()
    }

    pub fn is_empty(&self) -> bool
        ensures { IsTrue result ↔ (self.now ≡ []) }
    {
        self.as_slice().is_empty()
    }
}

/// The elements of one `mmuext_op`, in order.
pub type ExtList = ItemList<ExtOp>;

/// Frames of a GDT, extents of a `memory_op`, or what else is a plain list of numbers.
pub type Numbers = ItemList<u64>;

/// A hypercall that may also be a call of a `multicall`.
#[derive(Drop)]
pub enum Call {
    /// `mmu_update`. Bits 0 to 15 of `foreign` name the owner of mapped frames, bits 16 to 31 are 0 or
    /// one more than the owner of the tables.
    Mmu {
        foreign: u64,
        pairs: Pairs,
    },
    /// `mmuext_op`.
    Ext {
        list: ExtList,
    },
    /// `update_va_mapping`.
    Va {
        va: u64,
        val: u64,
        flags: u64,
    },
    /// `update_va_mapping_otherdomain`.
    VaOther {
        va: u64,
        val: u64,
        flags: u64,
        domain: u64,
    },
    /// `set_gdt`, with the number of entries.
    Gdt {
        entries: u64,
        frames: Numbers,
    },
    /// `update_descriptor`.
    Desc {
        address: u64,
        word: u64,
    },
    /// `memory_op`: the low six bits of `command` are the command, the bits above are the first extent
    /// that is still to be done.
    Mem {
        command: u64,
        order: u64,
        items: Numbers,
    },
}

/// The calls of one `multicall`, in order.
pub type CallList = ItemList<Call>;

/// One operation of a vCPU's script: a hypercall, an access of the guest, or a tool's command.
#[derive(Drop)]
pub enum Op {
    /// A hypercall by itself.
    One {
        call: Call,
    },
    /// `multicall`, of one call or more.
    Multi {
        calls: CallList,
    },
    /// The guest's load of 8 bytes by its kernel or user base.
    Read {
        user: bool,
        va: u64,
    },
    /// The guest's store of 8 bytes.
    Write {
        user: bool,
        va: u64,
        val: u64,
    },
    /// The guest's first touch of that page of its LDT.
    TouchLdt {
        page: u64,
    },
    /// A tool's command: the domain is to be destroyed, by whatever vCPU has it in its script.
    Destroy {
        domain: u64,
    },
    /// Gives domain `to` the privilege over domain `over`; a trace of version 2 alone.
    Grant {
        to: u64,
        over: u64,
    },
    /// Takes that privilege away; a trace of version 2 alone.
    Revoke {
        to: u64,
        over: u64,
    },
    /// A guest's store to its own L1 table through a read-only mapping; a trace of version 2 alone.
    Ptwr {
        user: bool,
        va: u64,
        val: u64,
    },
    /// `memory_op` command 11 (`XENMEM_exchange`), from extents of one order to extents of another; a
    /// trace of version 2 alone.
    Xchg {
        first: u64,
        from: u64,
        to: u64,
        items: Numbers,
    },
}

/// The operations of one vCPU, in order.
pub type Script = ItemList<Op>;
