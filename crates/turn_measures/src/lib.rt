//! What a turn leaves of what is ahead of its vCPU, of what its old words name, and of the words of others; that no frame falls back in one that is paused
//! within an element; and what turns that wait for a flush, or answer an ask for one, leave of the clock. These functions do nothing: their contracts are laws.
#![tactic(auto)]

mod flushing;
mod going;
mod others;
mod pausing;
mod settling;

pub use flushing::{a_turn_answers_its_ask, no_ask_is_past_the_clock, who_is_waited_for_is_asked};
pub use going::a_turn_gets_ahead_or_stays;
pub use others::a_turn_leaves_the_others;
pub use pausing::a_turn_paused_within_an_element_goes_forward;
pub use settling::{a_paused_settling_names_less, a_settling_that_ends_names_none};
