//! One element of `mmuext_op`: a page table is pinned or unpinned, a base or the LDT of the vCPU is set, own translations are dropped, the
//! vCPUs of the domain are waited for until they have dropped theirs, or a page is cleared or copied.
#![tactic(auto)]

mod element;
mod elements;
mod pinning;
mod translations;
mod unpinning;
mod waiting;

pub use element::Element;
pub use elements::{awaited_of, perform};
pub use pinning::pin;
pub use translations::{flush_local, invalidate};
pub use unpinning::unpin;
pub use waiting::flush_vcpus;
