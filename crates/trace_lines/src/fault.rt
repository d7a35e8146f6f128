//! What may be wrong with a line of a trace.

ghost use Rattle.std.specs.Prelude.{◌≡◌};
ghost use Rattle.trace_lines.specs.declared.fault.LineError.TheVariants.{Memory};

use std::alloc::{AllocError, AllocFailed};

/// Why a line cannot stand where it stands.
#[derive(Clone, Copy, Debug, PartialEq, Eq)]
pub enum Cause {
    /// The bytes end where a line should begin, or inside one, or go on behind the last one.
    End,
    /// The line has none of the forms.
    Line,
    /// The order of the forms does not allow it here.
    Place,
    /// A number is outside its range.
    Range,
}

/// A counted quantity of a trace. docs/TRACE.md has the limit of each.
#[derive(Clone, Copy, Debug, PartialEq, Eq)]
pub enum What {
    Bytes,
    Frames,
    Domains,
    Vcpus,
    /// Operations of all vCPUs.
    Ops,
    /// Operations that destroy a domain.
    Destroys,
    /// Numbers in the lists of one operation.
    Numbers,
    /// Extents of all memory operations.
    Extents,
    /// Turns of all vCPUs.
    Turns,
}

/// What is wrong with one line.
#[derive(Clone, Copy, Debug, PartialEq, Eq)]
pub enum LineFault {
    /// It is wrong by itself, or where it stands.
    Bad(Cause),
    /// A quantity passes its limit, with the number that it would have.
    Passed { what: What, number: u64 },
}

/// Why a line was not taken.
#[derive(Clone, Copy, Debug, PartialEq, Eq)]
pub enum LineError {
    /// Memory ran out, so nothing is said of the line.
    Memory,
    At(LineFault),
}

impl LineError {
    /// The line has none of the forms.
    pub const LINE: LineError = LineError::At(LineFault::Bad(Cause::Line));

    /// It may not stand here.
    pub const PLACE: LineError = LineError::At(LineFault::Bad(Cause::Place));

    /// A number is outside its range.
    pub const RANGE: LineError = LineError::At(LineFault::Bad(Cause::Range));
}

impl From<AllocError> for LineError {
    ghost from_gives = { λ _ e. e ≡ Memory };

    fn from(_e: AllocError) -> LineError {
        LineError::Memory
    }
}

impl<T: Drop> From<AllocFailed<T>> for LineError {
    ghost from_gives = { λ _ e. e ≡ Memory };

    fn from(_e: AllocFailed<T>) -> LineError {
        LineError::Memory
    }
}
