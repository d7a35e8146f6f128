//! Whole frames of the own domain, cleared and copied.
#![tactic(auto)]

mod clearing;
mod copying;

pub use clearing::clear_page;
pub use copying::copy_page;
