//! What pins come to. These functions do nothing: their contracts are laws about the courses of mmuext_ops.
#![tactic(auto)]

mod pins;

pub use pins::{a_pin_alone_is_decided, a_pin_is_done_exactly_where_its_tree_is_lawful};
