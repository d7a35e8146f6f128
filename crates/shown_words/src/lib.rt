//! What a refusal shows of words. These functions do nothing: their contracts are laws about the courses of elements and operations.
#![tactic(auto)]

mod refusals;

pub use refusals::a_refusal_shows_settled_words;
