//! The pages of a guest's LDT, taken when the guest first touches them.
#![tactic(auto)]

mod touching;

pub use touching::touch_ldt;
