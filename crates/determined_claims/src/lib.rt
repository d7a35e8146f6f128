//! What takes blocks of memory for a domain, or gives frames back, is determined by the words that it finds: any two courses from one port are the same, and end in one port
//! with one answer, unless at some step that both made they found different words. These functions do nothing: their contracts are laws.
#![tactic(auto)]

mod laws;

pub use laws::{a_claim_is_determined, a_return_is_determined, an_extent_is_determined};
