//! Images: a machine with its words, as bytes to be kept.
//!
//! An image is a row of numbers, eight bytes each, the lowest byte first. Before them stand the letters `XPVIMG01`. The numbers are: how many
//! frames, 1 to 65,536; the count limit, 2 to 67,108,863; how many domains and how many vCPUs, 1 to 16 each; the page limit of each domain, at
//! most 65,536; the mask of each domain, over which others it has privilege at the opening; the domain of each vCPU; how many words; and the words
//! by their places. Nothing follows.
#![tactic(auto)]

mod fault;
mod laws;
mod numbers;
mod read;
mod write;

pub use fault::ImageFault;
pub use laws::{an_image_has_one_spelling, an_image_reads_back, bytes_without_fault_are_an_image};
pub use numbers::Numbers;
pub use read::{image_in, read_image};
pub use write::{Image, write_image};
