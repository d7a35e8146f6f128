//! Words of a vCPU that name frames of one type.
#![tactic(auto)]

mod words;

pub use words::put_name;
