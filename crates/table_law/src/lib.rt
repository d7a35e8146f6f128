//! What an acquisition of a tree of page tables by one vCPU alone answers and leaves, as functions of a plain value of the
//! frames: their owners with counts, their kind words and cells. Pauses, stacks and what a refusal gives back are told of the
//! same value. These functions do nothing: their contracts are laws.
#![tactic(auto)]

mod lawful;
mod release;
mod stack;

pub use lawful::{
    a_plain_acquisition_is_fine_where_lawful, an_acquisition_is_fine_where_the_words_are_lawful,
    words_are_described,
};
pub use release::{
    a_refused_acquisition_changes_only_types, a_release_undoes_an_acquisition,
    what_is_held_is_given_back_by_entries,
};
pub use stack::{a_pause_parks_what_a_resumption_reads, the_rest_goes_on_by_entries};
