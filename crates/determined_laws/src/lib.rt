//! What a call does is determined by the words that it finds: any two lists of steps that meet its account, from one port, are the same list with the same answer, unless at
//! some step that both made they found different words. These functions do nothing: their contracts are laws. So no body that looks twice, tries again, answers by an
//! outdated look, or makes a step more or less meets such an account beside the body that does not.
#![tactic(auto)]

mod laws;

pub use laws::{
    a_flush_is_determined, a_guests_load_is_determined, a_guests_store_is_determined,
    a_lock_is_determined, a_m2p_update_is_determined, a_reference_given_back_is_determined,
    a_reference_is_determined, a_type_given_back_is_determined, a_type_is_determined,
    a_wait_is_determined, a_walk_is_determined, owners_are_determined,
};
