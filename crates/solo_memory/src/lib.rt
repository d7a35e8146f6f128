//! By one vCPU alone, what an extent of `memory_op` comes to is its plain meaning. These functions do nothing: their contracts are laws.
#![tactic(auto)]

mod extents;

pub use extents::{
    a_decrease_is_its_first_frames_and_the_rest, an_extent_alone_comes_to_its_plain_meaning,
    an_extent_keeps_a_port_settled, the_rest_of_an_extent_alone_comes_to_its_plain_meaning,
};
