//! Words of frames that say who owns them and how often they are referred to: one step each, and the references of
//! the hand that these make.
#![tactic(auto, using(crate::proofs::RowSteps::rows))]

mod cells;
mod freeing;
mod references;
mod rows;

pub use cells::{look_cell, store_cell};
pub use freeing::{lower_pages, set_free_bit, store_free};
pub use references::{get_ref, put_ref};
pub use rows::{Open, look_refs, lower_refs, raise_refs, store_m2p};
