//! What two vCPUs that act on each other again and again come to: in rounds in which each has a turn, all come to the ends of their scripts. These functions do nothing: their contracts are laws.
#![tactic(auto)]

mod rounds;
mod turns;

pub use rounds::{all_retire_in_rounds, all_scripts_are_answered_in_rounds, an_opening_is_steady};
pub use turns::a_turn_leaves_less_to_do;
