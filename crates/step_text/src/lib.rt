//! Steps as text: a line for each, which says in words of the machine what was done where and what was found.
#![tactic(auto)]

mod acts;
mod lines;
mod places;
mod told;

pub use lines::steps_text;
pub use told::ToldStep;
