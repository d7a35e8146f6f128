//! What whole acquisitions come to. These functions do nothing: their contracts are laws about their courses (table_entries).
#![tactic(auto)]

mod alone;
mod lawful;

pub use alone::{
    an_acquisition_alone_is_decided, an_acquisition_is_had_exactly_where_lawful,
    who_is_alone_has_orderly_words,
};
pub use lawful::a_decided_acquisition_is_had_exactly_where_lawful;
