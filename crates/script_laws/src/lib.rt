//! Turns of one vCPU that is alone, under every gate, come to what its script comes to at once. These functions do nothing: their contracts are laws.
#![tactic(auto)]

mod scripts;

pub use scripts::preemption_is_invisible;
