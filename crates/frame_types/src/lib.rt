//! Types of frames, taken and given back.
#![tactic(auto)]

mod leaving;
mod lowering;
mod plain;
mod standing;
mod taking;
mod words;

pub use leaving::{leave_dead, leave_shared, leave_unsettled};
pub use lowering::drop_type;
pub use plain::drop_plain;
pub use standing::Standing;
pub use taking::{Counting, Taken, count_live, take_looked, take_type};
