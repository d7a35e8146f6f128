//! The `kept` marks of partial frames: a paused call leaves its type count in one. On a frame of another domain a mark may not stay where
//! that domain is dying, as its destruction would not find it.
#![tactic(auto)]

mod marks;
mod words;

pub use marks::{leave_kept, take_back};
