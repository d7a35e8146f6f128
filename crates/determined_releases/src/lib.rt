//! What is given back is determined by the words that are found: entries of tables, tables with all in them, what an earlier turn left, the old table of a base, and all that a
//! destroyed domain holds. Two courses from one port, with the same answers of the gate, come to one port with one answer, unless at some step that both made they found different
//! words. These functions do nothing: their contracts are laws.
#![tactic(auto)]

mod destroying;
mod releasing;

pub use destroying::{
    a_destruction_is_determined, a_frame_without_its_marks_is_determined,
    a_vcpu_without_its_words_is_determined,
};
pub use releasing::{
    a_base_is_determined, a_release_is_determined, a_settling_is_determined,
    an_entry_released_is_determined,
};
