//! What a script of one vCPU alone answers and leaves, operation by operation and element by element, as functions of a plain value of the machine: it knows no pause, no
//! stack, no unfinished table, no clock and no cache. Definitions, worked pictures, and a few laws about them; nothing to call.
#![tactic(auto)]

mod order;
mod refusing;

pub use order::{a_list_is_its_elements_in_order, a_script_is_its_operations_in_order};
pub use refusing::{
    a_refused_element_takes_nothing, a_value_at_rest_counts_some, an_unpin_undoes_a_pin,
};
