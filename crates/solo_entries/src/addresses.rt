//! Updates by address.
ghost use Rattle.std.specs.Prelude.{ℕ, Bool, List, Result};
ghost use Rattle.xp_words.specs.declared.reply.Stop.{Stop};
ghost use Rattle.xp_board.specs.Told.{PortValue};
ghost use Rattle.foreign_map.specs.declared.owners.Owners.{Owners};
ghost use Rattle.mmu_update.specs.UpdatesAt.{UpdatesAt};
ghost use Rattle.tlb_walks.specs.Addresses.{walk_refusal};
ghost use Rattle.course_laws.specs.Courses.{ClockGoesOn};
ghost use Rattle.script_law.specs.Values.{Solo, allowed};
ghost use Rattle.script_law.specs.Walks.{table_at, update_entry};
ghost use Rattle.solo_ports.specs.Coming.{ComesUnpaused};
ghost use Rattle.solo_ports.specs.Standing.{Clean};

use answer_laws::{a_call_alone_is_neither_lost_nor_busy, alone_stays, nobody_is_waited_for};
use refusal_laws::{
    a_call_alone_behind_paused_ones_is_paused_by_the_gate_or_comes_to_its_plain_meaning,
    a_first_call_alone_is_paused_by_the_gate_or_comes_to_its_plain_meaning,
    paused_calls_leave_a_kept_table,
};
use release_laws::{a_paused_release_leaves_the_rest, a_release_leaves_what_the_plain_one_leaves};

/// The update of the entry of level 1 that maps an address is done or refused as the plain one: refused by the address alone, for what its loads find on the way, for a frame there that is not
/// the tables' owner's or is no live table of level 1, or as the exchange of its entry is. It is never paused.
///
/// The premise on its steps: none finds the clock at its last value.
pub fn an_update_by_address_comes_to_its_plain_meaning()
    ensures { (v w : PortValue) (x : Solo) (o : Owners) (va word : ℕ) (answers : List Bool) (answer : Result (Unit {0}) Stop) → Clean v x → ClockGoesOn v w → UpdatesAt o va word v w answers answer →
        ComesUnpaused w (allowed (walk_refusal va) x (update_entry v.post.machine o va word x (table_at v.post.machine va x (x.own 0)))) answer }
{
    alone_stays();
    nobody_is_waited_for();
    a_call_alone_is_neither_lost_nor_busy();
    a_release_leaves_what_the_plain_one_leaves();
    a_paused_release_leaves_the_rest();
    a_first_call_alone_is_paused_by_the_gate_or_comes_to_its_plain_meaning();
    a_call_alone_behind_paused_ones_is_paused_by_the_gate_or_comes_to_its_plain_meaning();
    paused_calls_leave_a_kept_table();
}
