//! Entries of live tables that are exchanged under an entry lock: what the new word asks is taken first, and what the old one asked is given
//! back behind it.
#![tactic(auto)]

mod demands;
mod exchanging;
mod locks;
mod words;

pub use exchanging::{EntryUpdate, exchange_entry};
pub use locks::leave_lock;
