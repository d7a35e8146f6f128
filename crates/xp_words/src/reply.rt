use crate::item_list::ItemList;
use crate::kind::PageType;

/// Why an operation or an element of one was refused. `found` is the very word that a step found. docs/REPORT.md has
/// the numbers and texts that are printed.
#[derive(Clone, Copy, Debug, PartialEq, Eq)]
pub enum Refusal {
    /// The machine has no frame of that number.
    NoFrame {
        frame: u64,
    },
    /// The reference word is not that of a frame which the domain owns.
    WrongOwner {
        frame: u32,
        found: u64,
    },
    /// The frame has another type than the one that was wanted, and is not dead, by its kind word.
    OtherType {
        frame: u32,
        want: PageType,
        found: u64,
    },
    /// The entry is present with a reserved bit set.
    Reserved {
        frame: u32,
        index: u16,
        entry: u64,
    },
    /// The reference count stands at the limit of the trace.
    CountFull {
        frame: u32,
        found: u64,
    },
    /// The kind word has its pinned mark set.
    AlreadyPinned {
        found: u64,
    },
    /// The kind word has no pinned mark.
    NotPinned {
        found: u64,
    },
    /// A slot of a top table that is the hypervisor's.
    Slot {
        index: u16,
    },
    /// A walk found no present entry at that level; at level 5, no base.
    NotMapped {
        level: u8,
        entry: u64,
    },
    /// A write through an entry that cannot be written.
    ReadOnly {
        entry: u64,
    },
    /// Bits 48 to 63 of an address are not equal to bit 47.
    NonCanonical,
    /// The caller's domain has no privilege over the other.
    NoPrivilege {
        caller: u16,
        domain: u16,
    },
    /// The machine has no such domain.
    NoDomain,
    /// The domain is being destroyed, or dead, by its life word.
    Dying {
        domain: u16,
        found: u64,
    },
    /// The domain has as many pages as it may.
    DomainFull {
        found: u64,
    },
    /// No frame is free.
    NoFree,
    /// The address of a write is no multiple of 8.
    BadRange,
    /// A word that may not stand in a descriptor page.
    BadDescriptor {
        frame: u32,
        index: u16,
        word: u64,
    },
    /// No such command, or an operation that is not built.
    BadCommand,
    /// The clock stands at its last value, so no flush can be told from the ones before it.
    Clock {
        found: u64,
    },
    /// A list has more than 512 elements.
    BatchLong,
    /// A frame that is to be exchanged has other references.
    InUse {
        frame: u32,
        found: u64,
    },
}

/// Why an operation goes on in a later turn.
#[derive(Clone, Copy, Debug, PartialEq, Eq)]
pub enum Pause {
    /// The gate said yes in this turn.
    Due,
    /// An exchange found another word than was loaded before it.
    Lost {
        place: u32,
        expected: u64,
        found: u64,
    },
    /// The frame was found locked or closing.
    Busy {
        frame: u32,
        found: u64,
    },
    /// A running vCPU's flush is not later than the stamp.
    Flush {
        vcpu: u32,
        stamp: u64,
        found: u64,
    },
    /// Destruction found the vCPU running.
    Alive {
        vcpu: u32,
        found: u64,
    },
}

/// How a call that did not succeed ended: for good, or until the vCPU's next turn.
#[derive(Clone, Copy, Debug, PartialEq, Eq)]
pub enum Stop {
    Refused(Refusal),
    Paused(Pause),
}

/// The answer of an operation or of a call of a `multicall`: `done` elements were done, `value` is what
/// a read found or destruction left.
#[derive(Clone, Copy, Debug, PartialEq, Eq)]
pub struct Reply {
    pub done: u32,
    pub value: u64,
    pub refusal: Option<Refusal>,
}

/// One line of a vCPU's log. Operations and calls count from 1; call 0 is the operation itself.
#[derive(Clone, Copy, Debug, PartialEq, Eq)]
pub enum LogLine {
    Answer {
        op: u32,
        call: u32,
        reply: Reply,
    },
    /// That extent of the list got the block that begins at that frame.
    Given {
        op: u32,
        call: u32,
        extent: u32,
        frame: u32,
    },
    /// Destruction left that frame, with the reference word found.
    Left {
        op: u32,
        frame: u32,
        found: u64,
    },
}

/// What one vCPU's operations answered, in order.
pub type Log = ItemList<LogLine>;
