//! The machine: the atomic steps of its vCPUs, what a vCPU holds, when a step is legal and what it leaves. Lemmas on what the definitions are made of stand in
//! `proofs/`: lists and searches in them, sums and counts, words and their bits, forms of frames, and which hand holds a frame.
#![tactic(auto)]

mod holdings;
mod port;
mod sanity;
mod step;

pub use holdings::{
    Claimed, Ending, Holdings, Liveness, Lock, Looking, Made, OwnerFound, Reached, Reference, Seen,
    Touching, TypedReference, Unsettled, Walk, Work,
};
pub use port::Port;
pub use sanity::{
    a_load_leaves_the_word, a_look_is_legal, a_map_is_legal, a_raise_is_legal,
    a_step_tells_the_own_run_word, an_awaited_stamp_is_free, an_own_word_is_as_it_was_left,
    empty_hands_are_well_formed, what_comes_back_is_known_live, what_is_lowered_is_in_hand,
    what_steps_move_in_hand,
};
pub use step::{Act, Item, Mark, Step, StepKind};
