//! The words of the command line, read with `clap`: what they ask for.
#![tactic(auto)]

mod asked;
mod known;
mod reading;

pub use asked::{Asked, Manner};
pub use known::path_of;
pub use reading::asked_of;
