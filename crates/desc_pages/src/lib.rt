//! Descriptor pages: frames that are taken as such, the words of a vCPU that name them, and single descriptors.
#![tactic(auto)]

mod descriptors;
mod fixing;
mod gdt;
mod ldt;
mod pages;
mod words;

pub use descriptors::update_descriptor;
pub use fixing::{Unfixed, fix_words};
pub use gdt::set_gdt;
pub use ldt::set_ldt;
pub use pages::{get_desc, take_desc};
pub use words::put_page;
