//! What calls leave that take descriptor pages and are paused: no frame falls back. These functions do nothing: their contracts are laws.
#![tactic(auto)]

mod describing;

pub use describing::a_paused_taking_of_pages_goes_forward;
