//! The text of a trace, as a whole.
#![tactic(auto)]

mod counts;
mod part;
mod read;
mod taken;
mod trace;
mod write;

pub use read::{MAX_BYTES, read_trace};
pub use trace::{
    CellList, CellRun, Own, OwnList, ScriptList, Trace, TraceFault, TurnList, TurnRun,
};
pub use write::write_trace;
