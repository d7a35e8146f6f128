//! The clock, flushes of translations and what they await, and the words of vCPUs and domains: one step each.
#![tactic(auto, using(crate::proofs::RowSteps::rows))]

mod flushes;
mod turns;

pub use flushes::{
    LAST_CLOCK, ask, flush, flush_own, look_flushed, look_life, look_privileges, look_run_of, tick,
};
pub use turns::{begin_turn, end_answer, look_run, stop_vcpu};
