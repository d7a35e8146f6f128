//! The page tables that a vCPU has in work, one in the other.
#![tactic(auto)]

mod levels;
mod stack;

pub use levels::{is_xen_slot, level_of, level_type};
pub use stack::{Stack, TableWork};
