//! Traces that are made by rule, of as many operations as are wanted.
#![tactic(auto)]

mod operation;
mod whole;

pub use whole::generate;
