//! The parts of the soundness of a small machine, each decided by itself.
#![tactic(auto)]

mod alone;
mod counts;
mod domains;
mod formed;
mod found;
mod frames;
mod fresh;
mod lawful;
mod sound;
mod valid;

pub use lawful::is_lawful;
pub use sound::{PARTS, Part, keeps};
