//! What an entry of a page table asks of the frame that it names.
#![tactic(auto)]

mod asking;
mod bits;

pub use asking::{demand, is_slot};
pub use bits::EntryBits;

#[cfg(test)]
mod tests;
