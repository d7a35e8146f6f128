//! What a guest's reads and writes, and walks of its tables, come to by one vCPU alone. These functions do nothing: their contracts are laws about the courses of accesses (tlb_walks, mmu_update).
#![tactic(auto)]

mod accesses;
mod walks;

pub use accesses::{a_read_comes_to_its_plain_meaning, a_write_comes_to_its_plain_meaning};
pub use walks::{
    a_touched_page_is_walked_to_the_plain_way, a_walk_goes_the_plain_way, loads_lead_the_plain_way,
};
