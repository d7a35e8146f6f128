//! Machine-to-physical words, and entries of locked tables.
ghost use Rattle.std.specs.Prelude.{◌≡◌, ◌≢◌, ◌≤◌, ℕ, Bool, List, Result, Err, IfErr, length};
ghost use Rattle.xp_words.specs.Machine.{IsMachine};
ghost use Rattle.xp_words.specs.declared.reply.Pause.TheVariants.{Due};
ghost use Rattle.xp_words.specs.declared.reply.Stop.{Stop};
ghost use Rattle.xp_words.specs.declared.reply.Stop.TheVariants.{Paused};
ghost use Rattle.xp_board.specs.Told.{PortValue, told_word};
ghost use Rattle.step_maker.specs.Answers.{Stops};
ghost use Rattle.step_maker.specs.Holds.{Rests};
ghost use Rattle.answer_laws.specs.Alone.{IsAlone};
ghost use Rattle.table_words.specs.OldWords.{old_place};
ghost use Rattle.table_words.specs.declared.old_words.OldWord.TheVariants.{First};
ghost use Rattle.table_law.specs.Lawful.{IsAtRest};
ghost use Rattle.table_law.specs.Plain.{Describes, Plain};
ghost use Rattle.course_laws.specs.Courses.{ClockGoesOn};
ghost use Rattle.m2p_map.specs.Found.{SetFound};
ghost use Rattle.m2p_map.specs.Maps.{TwinSet};
ghost use Rattle.foreign_map.specs.declared.owners.Owners.{Owners};
ghost use Rattle.entry_exchange.specs.Asking.{of_exchange};
ghost use Rattle.entry_exchange.specs.Course.{Exchanged};
ghost use Rattle.entry_exchange.specs.declared.exchanging.EntryUpdate.{EntryUpdate};
ghost use Rattle.exchange_laws.specs.Plain.{exchanged_plain};
ghost use Rattle.script_law.specs.Frames.{set_map};
ghost use Rattle.script_law.specs.Values.{Solo};
ghost use Rattle.solo_ports.specs.Coming.{ComesUnpaused};
ghost use Rattle.solo_ports.specs.Standing.{Clean};
ghost use Rattle.solo_entries.specs.Exchanges.{ComesSo, HasTwoTypeCounts};

use answer_laws::{a_call_alone_is_neither_lost_nor_busy, alone_stays, nobody_is_waited_for};
use refusal_laws::{
    a_call_alone_behind_paused_ones_is_paused_by_the_gate_or_comes_to_its_plain_meaning,
    a_first_call_alone_is_paused_by_the_gate_or_comes_to_its_plain_meaning,
    paused_calls_leave_a_kept_table,
};
use release_laws::{a_paused_release_leaves_the_rest, a_release_leaves_what_the_plain_one_leaves};

/// The update of a machine-to-physical word is done or refused as the plain one, and never paused: the word is set where the frame is the owner's and has room for a reference.
pub fn a_machine_to_physical_update_comes_to_its_plain_meaning()
    ensures { (v w : PortValue) (x : Solo) (owner f gpfn : ℕ) (answer : Result (Unit {0}) Stop) → Clean v x → Rests w → SetFound v w f owner gpfn answer → TwinSet v w f owner gpfn answer →
        ComesUnpaused w (set_map v.post.machine owner f gpfn x) answer }
{
    alone_stays();
    nobody_is_waited_for();
    a_call_alone_is_neither_lost_nor_busy();
    a_release_leaves_what_the_plain_one_leaves();
    a_paused_release_leaves_the_rest();
    a_first_call_alone_is_paused_by_the_gate_or_comes_to_its_plain_meaning();
    a_call_alone_behind_paused_ones_is_paused_by_the_gate_or_comes_to_its_plain_meaning();
    paused_calls_leave_a_kept_table();
}

/// An exchange of an entry in a table that is locked, which the gate does not pause, is done or refused as the plain one, and leaves the frames that this leaves: at once, or behind the release
/// of what the old entry asked, which is still to be settled. The lock goes off.
///
/// The premises: the vCPU is the only one, the words are at rest with the lock on, and no step finds the clock at its last value.
pub fn an_exchange_in_one_turn_comes_to_the_plain_one()
    ensures { (y w : PortValue) (t : EntryUpdate) (o : Owners) (q : Plain) (answers : List Bool) (answer : Result (Unit {0}) Stop) → IsMachine y.post.machine → IsAlone y → length y.post.machine.vcpu_domain ≡ 1 → IsAtRest y.post.machine (told_word y) →
        told_word y (old_place y.post.vcpu First) ≡ 0 → Describes y.post.machine (told_word y) q → HasTwoTypeCounts t.table q → 1 ≤ t.level → t.level ≤ 4 → ClockGoesOn y w → Exchanged y t o w answers answer →
        IfErr answer (λ e. Stops y w (of_exchange t o answer) e) → answer ≢ Err (Paused Due) →
        ComesSo y.post.machine w (exchanged_plain y.post.machine t o q) answer }
{
    alone_stays();
    nobody_is_waited_for();
    a_call_alone_is_neither_lost_nor_busy();
    a_release_leaves_what_the_plain_one_leaves();
    a_paused_release_leaves_the_rest();
    a_first_call_alone_is_paused_by_the_gate_or_comes_to_its_plain_meaning();
    a_call_alone_behind_paused_ones_is_paused_by_the_gate_or_comes_to_its_plain_meaning();
    paused_calls_leave_a_kept_table();
}
