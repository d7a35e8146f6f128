//! The report: the text of a machine's words and of its vCPUs' logs. The summary: how many of each there are.
#![tactic(auto)]

mod counts;
mod log;
mod memory;
mod numbers;
mod whole;
mod words;

pub use counts::summary;
pub use whole::{FormText, HolderText, report};
pub use words::LifeText;
