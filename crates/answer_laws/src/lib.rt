//! What answers mean, as laws: which answers no steps license, which steps fit no answer, and what a vCPU is spared that
//! is alone. These functions do nothing: their contracts are laws.
#![tactic(auto)]

mod alone;
mod answers;
mod licences;
mod one_vcpu;
mod pieces;

pub use alone::{
    a_call_alone_is_neither_lost_nor_busy, alone_stays, nothing_is_busy_where_others_hold_nothing,
    nothing_is_lost,
};
pub use answers::{
    a_foreign_frame_has_no_other_type, own_references_fill_no_count, own_types_fill_no_count,
    own_work_is_not_busy, who_is_waited_for_was_asked,
};
pub use licences::{
    a_claim_awaits_its_own_block, a_destruction_may_pause_behind_an_empty_vcpu,
    a_destruction_of_the_own_domain_may_be_refused, a_frame_of_a_destroyed_domain_is_asked,
    a_frame_that_is_not_allocated_may_be_refused, a_grant_without_the_privilege_may_be_refused,
    a_level_is_walked_to_from_above, a_write_for_the_guest_finds_no_table,
    no_free_block_in_one_pass_upwards, only_an_entry_update_walks_to_another_type,
};
pub use one_vcpu::{nobody_is_alive, nobody_is_waited_for, nothing_is_busy};
pub use pieces::{
    a_claim_takes_pages, a_return_is_a_deed, a_store_keeps_the_type, asks_are_of_awaited_stamps,
    kind_words_of_other_frames_stay, no_kind_word_is_changed, no_kind_word_is_exchanged,
    no_needless_flush, nothing_is_tried_again, only_the_asked_type,
    privileges_are_changed_as_asked, the_clock_goes_on_for_a_flush_alone,
};
