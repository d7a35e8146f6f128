//! The board that threads share: all words of a machine in one table of atomic words. Each step of a vCPU is one atomic step of
//! the table, and all steps of all vCPUs are one run of legal steps.
#![tactic(auto)]

mod board;
mod closing;
mod deed;
mod pass;
mod rule;
mod shared_port;

pub use board::SharedBoard;
pub use pass::Pass;
pub use shared_port::SharedPort;
