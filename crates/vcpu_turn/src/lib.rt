//! The turns of virtual processors: how an operation that is a list goes on from turn to turn; and laws of all turns, whatever operation stands next (`laws`).
#![tactic(auto)]

mod accesses;
mod beginning;
mod calls;
mod cpu;
mod descriptors;
mod ext;
mod extents;
pub mod laws;
mod lists;
mod mappings;
mod pairs;
mod tasks;
mod turning;
mod working;

pub use cpu::{CallNumber, Cpu, Progress, TurnEnd};
pub use lists::{Items, go_on};
pub use turning::{stop, turn};
