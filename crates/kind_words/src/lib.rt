//! Kind words of frames: one step each, and what these leave in hand.
#![tactic(auto, using(crate::proofs::RowSteps::rows))]

mod forms;
mod rows;
mod words;

pub use forms::{dead_kind, live_kind, lost, partial_kind, read_kind, waiting_kind, work_kind};
pub use rows::{begin_work, count_type, leave, look_kind, lower_type, resume_work};
pub use words::{counts_one, is_stale_for};
