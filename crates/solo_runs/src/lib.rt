//! A run of a trace that has one vCPU comes to what its script comes to at once; and premises on the clock are said of words. These functions do nothing: their contracts are laws.
#![tactic(auto)]

mod pins;
mod runs;

pub use pins::{
    a_pin_that_leaves_the_clock_room_is_done_exactly_where_its_tree_is_lawful,
    a_turn_pins_a_frame_exactly_where_its_tree_is_lawful,
};
pub use runs::{
    a_clock_below_its_last_value_was_never_there, a_vcpu_opens_its_script,
    preemption_is_invisible_in_a_run, turns_and_pauses_do_not_matter,
    turns_and_pauses_give_one_report,
};
