//! Elements about whole pages and descriptor tables, done by a vCPU that is alone, come to what their plain meanings make of the machine. These functions do nothing: their contracts are laws.
#![tactic(auto)]

mod descriptors;
mod frames;
mod keeps;
mod settings;
mod touches;
mod wholes;

pub use descriptors::{
    a_descriptor_page_is_had_and_given_back_as_plainly,
    a_descriptor_updated_alone_comes_to_its_plain_meaning,
};
pub use frames::memory_is_taken_and_given_back;
pub use keeps::the_plain_functions_change_only_the_words_that_they_name;
pub use settings::{
    the_gdt_set_alone_comes_to_its_plain_meaning, the_ldt_set_alone_comes_to_its_plain_meaning,
};
pub use touches::a_page_of_the_ldt_touched_alone_comes_to_its_plain_meaning;
pub use wholes::{
    a_page_cleared_alone_comes_to_its_plain_meaning, a_page_copied_alone_comes_to_its_plain_meaning,
};
