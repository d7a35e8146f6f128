//! The references to each frame, counted again from the words of a machine in which no vCPU holds anything.
#![tactic(auto)]

mod adding;
mod marks;
mod tallies;

pub use tallies::{Tally, recount};
