//! `memory_op`: blocks of frames given to a domain, and frames given back by it, one extent each.
#![tactic(auto)]

mod extents;
mod returning;

pub use extents::{Extent, reserve};
