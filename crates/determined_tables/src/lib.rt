//! What takes references, types and whole tables is determined by the words that it finds: any two courses from one port, with the same answers of the gate, are the same, and
//! end in one port with one answer, unless at some step that both made they found different words. These functions do nothing: their contracts are laws.
#![tactic(auto)]

mod laws;

pub use laws::{
    a_cleared_page_is_determined, a_copied_page_is_determined, a_descriptor_page_is_determined,
    a_descriptor_page_taken_is_determined, a_descriptor_update_is_determined, a_gdt_is_determined,
    a_kept_mark_is_determined, a_named_page_is_determined, a_page_is_determined,
    a_page_taken_is_determined, a_round_of_tables_is_determined, a_table_entry_is_determined,
    a_touch_is_determined, an_acquisition_is_determined, an_entry_looked_at_again_is_determined,
    an_ldt_is_determined, tables_left_are_determined,
};
