//! Entry locks: a live table whose entry is exchanged is locked by one vCPU, and that entry is changed under its lock alone.
#![tactic(auto)]

mod locking;
mod rows;
mod words;

pub use locking::{Locked, lock_entry, unlock_entry};
pub use rows::{store_entry, swap_entry};
