//! One element of `mmu_update`: it sets a machine-to-physical word, exchanges an entry of a live page table, or stores a word of ordinary
//! memory; for tables and frames of the caller's own domain or of others. And the entry that maps an address, set.
#![tactic(auto)]

mod addresses;
mod element;
mod elements;
mod updates_at;

pub use element::Element;
pub use elements::update;
pub use updates_at::update_at;
