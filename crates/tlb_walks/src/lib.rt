//! Page walks of a guest, with accessed and dirty bits, and its reads and writes through cached translations.
#![tactic(auto, using(crate::proofs::RowSteps::rows))]

mod accesses;
mod addresses;
mod drops;
mod entries;
mod levels;
mod walks;

pub use accesses::{guest_read, guest_write};
pub use addresses::{index_at, refused_walk};
pub use drops::{ack, flush_local, invlpg};
pub use walks::{Walked, walk};
