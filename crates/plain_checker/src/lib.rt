//! Whether a step on a small machine is legal, by the hand of the vCPU that makes it.
#![tactic(auto)]

mod cells;
mod contexts;
mod flushes;
mod kinds;
mod legal;
mod lives;
mod marks;
mod references;
mod walks;

pub use legal::judge;
