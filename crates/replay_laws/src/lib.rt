//! What a call's steps do to words, without ports and hands: its list of visits done again on the words told before it; and which words a call leaves as they are, by
//! what it is asked. These functions do nothing: their contracts are laws.
#![tactic(auto)]

mod frames;
mod replays;

pub use frames::{a_word_of_a_frame_that_no_deed_sets_stays, what_is_not_asked_stays};
pub use replays::{a_list_has_one_end, one_part_replays_behind_the_other, steps_replay};
