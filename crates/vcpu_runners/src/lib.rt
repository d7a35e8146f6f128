//! Virtual processors with the gates that they ask, for whoever runs them in turns; and a whole run in which each makes its turns in a
//! thread of its own, on a board that all of them share.
#![tactic(auto)]

mod runner;
mod running;
mod worker;

pub use runner::Runner;
pub use running::run_in_threads;
pub use vcpu_turn::Cpu;
