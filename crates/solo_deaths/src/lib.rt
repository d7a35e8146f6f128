//! What the destruction of a domain by the only vCPU comes to. These functions do nothing: their contracts are laws about the courses of domain_destroy.
#![tactic(auto)]

mod deaths;

pub use deaths::{a_destruction_begins, a_destruction_comes_to_its_plain_meaning};
