//! Tests of the crates of words, gates, streams, translations, stacks and texts, with values that were worked out by hand.
//! There is nothing to call but the machines that the tests are about.
#![tactic(auto)]

mod machines;

pub use machines::{hundred_frames, least_machine, small_layout, three_domains};

#[cfg(test)]
mod gates;
#[cfg(test)]
mod generated;
#[cfg(test)]
mod lines;
#[cfg(test)]
mod openings;
#[cfg(test)]
mod reports;
#[cfg(test)]
mod sparse;
#[cfg(test)]
mod stacks;
#[cfg(test)]
mod streams;
#[cfg(test)]
mod traces;
#[cfg(test)]
mod walks;
#[cfg(test)]
mod words;
