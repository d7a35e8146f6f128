//! Whose tables and whose frames a call is about, which names other domains.
#![tactic(auto)]

mod owners;

pub use owners::{Owners, owner_for};
