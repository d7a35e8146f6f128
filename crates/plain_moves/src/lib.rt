//! What a step leaves of the words of a small machine and of the hand of the vCPU that makes it, legal or not.
#![tactic(auto)]

mod cells;
mod kinds;
mod learned;
mod marks;
mod references;
mod step;
mod walks;

pub use marks::marked;
pub use step::{Step, moved};
pub use walks::touched;
