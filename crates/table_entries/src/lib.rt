//! Entries of page tables in work, one at a time: the next one, which is met and recorded, and the last recorded one, which is
//! looked at again where a table was left partial.
//!
//! Its definitions also say the course of an acquisition of page tables: which calls on entries and frames it makes, one behind the other,
//! what each says of its steps, and what the gate answers. What is promised of whole acquisitions are laws about these courses.
#![tactic(auto)]

mod entries;
mod resuming;
mod waiting;

pub use entries::{Entered, TableEntry, take_entry};
pub use resuming::{Resumed, resume_entry};
