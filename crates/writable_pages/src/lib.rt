//! Frames that are taken as ordinary memory, of any domain.
#![tactic(auto)]

mod taking;

pub use taking::{get_page, take_page};
