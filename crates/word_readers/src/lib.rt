//! Single words of a machine that all stand in a slice, each at its place; and what the words of a frame say.
#![tactic(auto)]

mod kinds;
mod places;
mod references;

pub use kinds::{kind_of, recorded_entries};
pub use places::{cell, life_word, map_word, pages_word, privileges, vcpu_word, word_at};
pub use references::{free_stamp, is_allocated, is_dying, is_free, owner, ref_count};
