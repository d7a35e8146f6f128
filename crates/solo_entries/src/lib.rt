//! What elements of `mmu_update`, and updates by address, come to by one vCPU alone. These functions do nothing: their contracts are laws about the courses of elements.
#![tactic(auto)]

mod addresses;
mod elements;
mod exchanges;

pub use addresses::an_update_by_address_comes_to_its_plain_meaning;
pub use elements::a_pair_comes_to_its_plain_meaning;
pub use exchanges::{
    a_machine_to_physical_update_comes_to_its_plain_meaning,
    an_exchange_in_one_turn_comes_to_the_plain_one,
};
