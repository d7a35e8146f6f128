//! What an acquisition comes to that is refused: why, and what it leaves. These functions do nothing: their contracts are laws about the
//! courses of acquisitions (table_entries).
#![tactic(auto)]

mod refusals;
mod repeated;

pub use refusals::{
    a_refused_acquisition_is_refused_as_the_plain_one,
    an_acquisition_alone_comes_to_what_the_plain_one_comes_to, preemption_is_invisible_to_refusals,
    what_a_refused_acquisition_owes_is_settled,
};
pub use repeated::{
    a_call_alone_behind_paused_ones_is_paused_by_the_gate_or_comes_to_its_plain_meaning,
    a_first_call_alone_is_paused_by_the_gate_or_comes_to_its_plain_meaning,
    an_acquisition_from_described_words_comes_to_its_plain_meaning,
    an_acquisition_that_is_had_touches_no_other_words, paused_calls_and_one_more,
    paused_calls_leave_a_kept_table,
};
