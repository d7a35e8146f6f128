//! A board of one thread that lists the steps made on it, with the words that they found.
#![tactic(auto)]

mod told_board;

pub use told_board::ToldBoard;
