//! Elements of `mmu_update`.
ghost use Rattle.std.specs.Prelude.{◌≡◌, ◌⊎◌, ◌<◌, Bool, List, length, Result};
ghost use Rattle.xp_words.specs.declared.reply.Stop.{Stop};
ghost use Rattle.xp_board.specs.Told.{PortValue};
ghost use Rattle.foreign_map.specs.declared.owners.Owners.{Owners};
ghost use Rattle.mmu_update.specs.Fits.{Updates};
ghost use Rattle.mmu_update.specs.declared.element.Element.{Element};
ghost use Rattle.script_law.specs.Elements.{updated};
ghost use Rattle.script_law.specs.Values.{Solo};
ghost use Rattle.solo_ports.specs.Coming.{Comes};
ghost use Rattle.solo_ports.specs.Standing.{Clean, Fair, whose};
ghost use Rattle.solo_entries.specs.Kept.{KeepsWrite};

use answer_laws::{a_call_alone_is_neither_lost_nor_busy, alone_stays, nobody_is_waited_for};
use refusal_laws::{
    a_call_alone_behind_paused_ones_is_paused_by_the_gate_or_comes_to_its_plain_meaning,
    a_first_call_alone_is_paused_by_the_gate_or_comes_to_its_plain_meaning,
    paused_calls_leave_a_kept_table,
};
use release_laws::{a_paused_release_leaves_the_rest, a_release_leaves_what_the_plain_one_leaves};

/// An element of `mmu_update`, for tables of a domain that lives, is done or refused as the plain one, and leaves what that leaves, at once or behind the release of what the old entry
/// asked. Where it is paused, all is as before once what is left is settled; or the acquisition of the table that a new entry asks is unfinished (`KeepsWrite`), and from there the element
/// goes on by this law.
///
/// The premises on its steps: none finds the clock at its last value, or a reference word with its count at the limit.
pub fn a_pair_comes_to_its_plain_meaning()
    ensures { (v w : PortValue) (x : Solo) (o : Owners) (e : Element) (answers : List Bool) (answer : Result (Unit {0}) Stop) → o.tables < length v.post.machine.page_limit → x.lives o.tables ≡ 0 → Clean v x ⊎ KeepsWrite o e v x → Fair v w →
        Updates o e v w answers answer → Comes (KeepsWrite o e) w x (updated (whose v) o e x) answer }
{
    alone_stays();
    nobody_is_waited_for();
    a_call_alone_is_neither_lost_nor_busy();
    a_release_leaves_what_the_plain_one_leaves();
    a_paused_release_leaves_the_rest();
    a_first_call_alone_is_paused_by_the_gate_or_comes_to_its_plain_meaning();
    a_call_alone_behind_paused_ones_is_paused_by_the_gate_or_comes_to_its_plain_meaning();
    paused_calls_leave_a_kept_table();
}
