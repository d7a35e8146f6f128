//! Entries of page tables that are released: the last recorded one of a table in work or closing is shed, and what it asked given back.
#![tactic(auto)]

mod entries;

pub use entries::{Released, release_entry};
