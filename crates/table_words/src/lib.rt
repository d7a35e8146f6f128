//! Tables in work, pins, and the own words that name frames whose release is unfinished: one step each, and what these leave in hand.
#![tactic(auto)]

mod entries;
mod old_words;
mod pins;
mod words;

pub use entries::{record_entry, shed_entry};
pub use old_words::{OldWord, look_old, put_old, take_old};
pub use pins::{clear_pin, set_pin};
