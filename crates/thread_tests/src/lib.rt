//! Tests of vCPUs that run side by side, each in a thread of its own. There is nothing to call but what runs two of them.
#![tactic(auto)]

mod loads;
mod two;

pub use loads::{set_word, word_of};
pub use two::{both, two_passes};

#[cfg(test)]
mod audit;
#[cfg(test)]
mod claims;
#[cfg(test)]
mod random;
#[cfg(test)]
mod replays;
#[cfg(test)]
mod side_by_side;
#[cfg(test)]
mod tests;
