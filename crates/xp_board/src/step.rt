/// What a step does to its word. `Add` is modulo 2^64; `Cas` and `Max` answer the word that they found.
#[derive(Clone, Copy, Debug, PartialEq, Eq, Drop)]
pub enum Act {
    Load,
    Cas { expected: u64, new: u64 },
    Store { new: u64 },
    Add { by: u64 },
    Max { value: u64 },
}

/// What a step is for. Each kind has its words, its acts and its own condition.
#[derive(Clone, Copy, Debug, PartialEq, Eq, Drop)]
pub enum StepKind {
    /// A load of any word.
    Look,
    /// A frame's owner and reference count.
    Ref,
    /// A frame's type, type count and marks.
    Kind,
    /// A cell of a table under the own entry lock, of a writable frame, of a descriptor page or of a claimed frame.
    Cell,
    /// The machine-to-physical word of a frame.
    M2p,
    /// The number of pages of a domain.
    Pages,
    /// A word of a vCPU that names a frame, or the base of its LDT.
    Context,
    /// A load of the own page-table walk.
    Fill,
    /// An access of the guest through a cached translation.
    Guest,
    /// The clock, one up.
    Tick,
    /// Asks a vCPU to flush its translations.
    Ask,
    /// The own translations are flushed.
    Ack,
    /// Whether a domain lives.
    Life,
    /// Whether the own vCPU runs.
    Run,
    /// The map of free frames.
    Hint,
    /// The own walk sets accessed and dirty bits.
    Touch,
    /// The privileges of a domain.
    Priv,
}

/// What a step means beside its act. A mark is taken first, then the act.
#[derive(Clone, Copy, Debug, PartialEq, Eq, Drop)]
pub enum Mark {
    /// The next entry of a table in the own work joins the recorded ones, which then are the first `upto`.
    Record { frame: u32, upto: u16 },
    /// The last recorded entry of a table in the own work goes back into the hand; `upto` are left.
    Shed { frame: u32, upto: u16 },
    /// The cached translations of a page (bits 12 to 47 of the address) are dropped.
    Forget { page: u64 },
    /// An answer ends here: that of a call of a multicall by its number from 1, or of the operation itself with 0.
    Cut { call: u32 },
    /// A turn begins here.
    Turn,
    /// A walk begins here, for a write or not.
    Walk { write: bool },
}

/// One atomic step: one load, exchange, store, sum or maximum on the word at `place`.
#[derive(Clone, Copy, Debug, PartialEq, Eq, Drop)]
pub struct Step {
    pub place: u32,
    pub act: Act,
    pub kind: StepKind,
    pub mark: Option<Mark>,
}

/// A cached translation: `page` is bits 12 to 47 of the address. `writable` where all four entries were;
/// `dirty` where the walk found or set bit 6 of the last one.
#[derive(Clone, Copy, Debug, PartialEq, Eq, Drop)]
pub struct Item {
    pub user: bool,
    pub page: u64,
    pub frame: u32,
    pub writable: bool,
    pub dirty: bool,
}
