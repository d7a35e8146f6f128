//! A whole run of the machine: from the bytes of a trace to the bytes of a report or of an image; and the audit of an image.
#![tactic(auto)]

mod audits;
mod boards;
mod due;
mod execute;
pub mod laws;
mod running;
mod status;
mod stops;
mod texts;
mod threaded;
mod top;
mod turns;

pub use status::Status;
pub use threaded::{replay, replay_words};
pub use top::{run, run_serial};
pub use vcpu_runners::{Cpu, Runner};
