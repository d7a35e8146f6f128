//! Domains that are destroyed, phase by phase.
#![tactic(auto)]

mod beginning;
mod clearing;
mod destroying;
mod emptying;
mod laws;
mod listing;
mod marks;
mod phases;
mod place;
mod releasing;
mod stopping;
mod unused;

pub use destroying::destroy;
pub use laws::each_phase_opens_the_next;
pub use place::DestroyAt;
