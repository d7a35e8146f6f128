//! What a turn does is determined by where its vCPU stood, by what its gate answers, and by the words that it finds: two turns that meet the account of `turn`, from one port, come to one port and leave the
//! vCPU the same, unless at some step that both made they found different words; and on a board that tells all words there is one. These functions do nothing: their contracts
//! are laws.
#![tactic(auto)]

mod laws;

pub use laws::{
    a_multicall_is_determined, a_turn_is_determined, a_turn_on_told_words_is_one,
    an_operation_is_determined, told_courses_never_fork,
};
