//! What an exchange of an entry, an element of `mmu_update`, of `mmuext_op` or of `memory_op` does is determined by the words that it finds, and by what the gate answers: two courses
//! that meet its account, from one port, come to the same port with the same answer, unless at some step that both made they found different words. These functions do
//! nothing: their contracts are laws.
#![tactic(auto)]

mod laws;

pub use laws::{
    a_pin_is_determined, a_pin_of_a_live_table_is_determined, a_way_down_is_determined,
    an_exchange_is_determined, an_extended_operation_is_determined, an_unpin_is_determined,
    an_update_by_address_is_determined, an_update_is_determined,
};
