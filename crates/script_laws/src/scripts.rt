//! Scripts of one vCPU that is alone.
ghost use Rattle.std.specs.Prelude.{◌≡◌, true};
ghost use Rattle.xp_board.specs.Told.{PortValue};
ghost use Rattle.script_law.specs.Scripts.{script_alone};
ghost use Rattle.script_law.specs.Values.{Solo};
ghost use Rattle.solo_accesses.specs.Stale.{IsNeverStale};
ghost use Rattle.solo_ports.specs.Standing.{Fair, whose};
ghost use Rattle.vcpu_turn.specs.Cpus.{Processing};
ghost use Rattle.script_laws.specs.Logged.{IsLogged};
ghost use Rattle.script_laws.specs.Opening.{IsStoppedAt, OpensScript};
ghost use Rattle.script_laws.specs.Turns.{IsLog, Turned};

use answer_laws::{a_call_alone_is_neither_lost_nor_busy, alone_stays, nobody_is_waited_for};
use refusal_laws::{
    a_call_alone_behind_paused_ones_is_paused_by_the_gate_or_comes_to_its_plain_meaning,
    a_first_call_alone_is_paused_by_the_gate_or_comes_to_its_plain_meaning,
    an_acquisition_that_is_had_touches_no_other_words, paused_calls_leave_a_kept_table,
};
use release_laws::{a_paused_release_leaves_the_rest, a_release_leaves_what_the_plain_one_leaves};
use shown_words::a_refusal_shows_settled_words;
use solo_entries::{
    a_pair_comes_to_its_plain_meaning, an_update_by_address_comes_to_its_plain_meaning,
};
use solo_memory::an_extent_alone_comes_to_its_plain_meaning;

/// No pause can be seen: by however many turns a script comes to its end, and whatever the gate answers in them, its log is that of the plain script, answer by answer and line by line, and the words show what that leaves. The vCPU is the only one of its machine.
///
/// The premises are on the steps: none finds the clock at its last value, or a reference word with its count at the limit, or comes to a word by a translation that a walk would not find.
pub fn preemption_is_invisible()
    ensures { (c d : Processing) (v w : PortValue) (x : Solo) → OpensScript c v x → Turned c v d w → d.retired ≡ true → Fair v w → IsNeverStale v w →
        IsLog IsLogged d.log (script_alone (whose v) c.script x).log × IsStoppedAt w (script_alone (whose v) c.script x).left }
{
    alone_stays();
    nobody_is_waited_for();
    a_call_alone_is_neither_lost_nor_busy();
    a_release_leaves_what_the_plain_one_leaves();
    a_paused_release_leaves_the_rest();
    a_first_call_alone_is_paused_by_the_gate_or_comes_to_its_plain_meaning();
    a_call_alone_behind_paused_ones_is_paused_by_the_gate_or_comes_to_its_plain_meaning();
    paused_calls_leave_a_kept_table();
    an_acquisition_that_is_had_touches_no_other_words();
    a_pair_comes_to_its_plain_meaning();
    an_update_by_address_comes_to_its_plain_meaning();
    an_extent_alone_comes_to_its_plain_meaning();
    a_refusal_shows_settled_words();
}
