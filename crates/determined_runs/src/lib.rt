//! A run in one thread is determined by its trace and by what the gates answer, and so is all that is printed of it. These functions do nothing: their contracts are laws.
#![tactic(auto)]

mod laws;

pub use laws::{a_run_is_determined, a_staged_turn_is_determined, what_is_printed_is_determined};
