//! What an exchange of an entry comes to on a board that tells all words. These functions do nothing: their contracts are laws about the
//! courses of entry_exchange.
#![tactic(auto)]

mod exchanges;
mod locks;

pub use exchanges::{
    an_exchange_alone_ends_as_the_plain_one, an_exchange_leaves_what_the_plain_one_leaves,
};
pub use locks::a_table_that_is_locked_again_is_as_before;
