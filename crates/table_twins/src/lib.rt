//! What entries of page tables ask and leave in words, and what the plain acquisition by one vCPU alone does with the plain
//! value that describes these words. These functions do nothing: their contracts are laws.
#![tactic(auto)]

mod entries;
mod references;
mod types;

pub use entries::an_entry_is_met_as_by_the_plain_value;
pub use references::{
    a_reference_is_given_back_as_by_the_plain_value, a_reference_is_taken_as_by_the_plain_value,
};
pub use types::a_type_is_taken_as_by_the_plain_value;
