//! Words that change where a domain is destroyed: its life word, and the words of its stopped vCPUs. One step each.
#![tactic(auto)]

mod lives;
mod names;

pub use lives::{bury, doom};
pub use names::{empty_word, look_word};
