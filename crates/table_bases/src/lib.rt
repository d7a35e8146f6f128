//! The page-table bases of a vCPU.
#![tactic(auto)]

mod installing;
mod setting;
mod words;

pub use setting::{new_base, new_user_base};
pub use words::Base;
