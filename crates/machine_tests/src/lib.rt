//! Tests of the machine as a whole: runs from a trace to its report, and single calls on the plain board. There is nothing to
//! call but the counts of steps that the tests compare.
#![tactic(auto)]

mod counting;

pub use counting::Counts;

#[cfg(test)]
mod boards;
#[cfg(test)]
mod examples;
#[cfg(test)]
mod generated;
#[cfg(test)]
mod history;
#[cfg(test)]
mod images;
#[cfg(test)]
mod lists;
#[cfg(test)]
mod pauses;
#[cfg(test)]
mod rivals;
#[cfg(test)]
mod runs;
#[cfg(test)]
mod steps;
#[cfg(test)]
mod tables;
#[cfg(test)]
mod told;
