use trace_lines::{Cause, What};
use xp_words::{ItemList, Layout, Script};

/// Frames `first` to `first + count - 1`, which the domain owns at the opening.
#[derive(Clone, Copy, Debug, PartialEq, Eq)]
pub struct Own {
    pub domain: u16,
    pub first: u32,
    pub count: u32,
}

/// Cells `first` to `first + count - 1` of a frame, which hold that value at the opening.
#[derive(Clone, Copy, Debug, PartialEq, Eq)]
pub struct CellRun {
    pub frame: u32,
    pub first: u16,
    pub count: u16,
    pub value: u64,
}

/// Turns of one vCPU in a row.
#[derive(Clone, Copy, Debug, PartialEq, Eq)]
pub struct TurnRun {
    pub vcpu: u32,
    pub count: u32,
}

/// The frames that are owned at the opening, in the order of their lines.
pub type OwnList = ItemList<Own>;

/// The cells that hold something at the opening. A later one overwrites an earlier one.
pub type CellList = ItemList<CellRun>;

/// One script for each vCPU.
pub type ScriptList = ItemList<Script>;

/// The turns, in the order in which they are taken.
pub type TurnList = ItemList<TurnRun>;

/// What a trace says: the machine, what it opens with, and what its vCPUs do.
#[derive(Drop)]
pub struct Trace {
    /// 1, or 2, which allows more frames and more operations.
    pub version: u8,
    /// The numbers that stay as they are for the whole run.
    pub layout: Layout,
    /// The clock's opening value, 1 to 2^36 - 2.
    pub clock: u64,
    pub owned: OwnList,
    pub cells: CellList,
    pub scripts: ScriptList,
    pub turns: TurnList,
}

/// Why there is no trace.
#[derive(Clone, Copy, Debug, PartialEq, Eq)]
pub enum TraceFault {
    /// That line is at fault, counted from 1.
    Bad { line: u32, cause: Cause },
    /// In that line a counted quantity passes its limit; line 0 stands for the bytes themselves.
    Large { line: u32, what: What, number: u64 },
    /// Memory ran out, so nothing is said of the bytes.
    Memory,
}
