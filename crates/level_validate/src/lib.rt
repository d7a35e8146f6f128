//! Frames that are taken as page tables of levels 1 to 4, with all that their entries ask: validated entry by entry, left partial where
//! something stops it, and taken on where an earlier call left them.
#![tactic(auto)]

mod acquiring;
mod completing;
mod entering;
mod unwinding;

pub use acquiring::acquire;
