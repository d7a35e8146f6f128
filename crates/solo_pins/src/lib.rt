//! What the elements of `mmuext_op` come to that are about tables and translations, by one vCPU alone. These functions do nothing: their contracts are laws about the courses of mmuext_ops.
#![tactic(auto)]

mod elements;

pub use elements::{
    a_new_base_comes_to_its_plain_meaning, a_pin_comes_to_its_plain_meaning,
    an_element_on_tables_comes_to_its_plain_meaning, an_unpin_comes_to_its_plain_meaning,
};
