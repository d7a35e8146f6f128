//! Elements on tables and translations, by one vCPU alone.
ghost use Rattle.std.specs.Prelude.{◌≡◌, ◌⊎◌, ◌≤◌, ℕ, Bool, List, Option, Some, Result};
ghost use Rattle.xp_words.specs.declared.reply.Stop.{Stop};
ghost use Rattle.xp_board.specs.Told.{PortValue};
ghost use Rattle.table_bases.specs.Asking.{user_frame};
ghost use Rattle.mmuext_ops.specs.declared.element.Element.{Element};
ghost use Rattle.mmuext_ops.specs.declared.element.Element.TheVariants.{Pin, Unpin, NewBase, NewUserBase};
ghost use Rattle.script_law.specs.Elements.{performed};
ghost use Rattle.script_law.specs.Frames.{pin, set_base, unpin};
ghost use Rattle.script_law.specs.Values.{Solo};
ghost use Rattle.solo_ports.specs.Coming.{Comes};
ghost use Rattle.solo_ports.specs.Standing.{Clean, Fair, IsSettled, KeepsTable, whose};
ghost use Rattle.solo_pins.specs.Performing.{IsOnTables, IsPerformed, KeepsPin, KeepsTop};

use answer_laws::{alone_stays, nobody_is_waited_for};
use refusal_laws::{
    a_call_alone_behind_paused_ones_is_paused_by_the_gate_or_comes_to_its_plain_meaning,
    a_first_call_alone_is_paused_by_the_gate_or_comes_to_its_plain_meaning,
    an_acquisition_that_is_had_touches_no_other_words, paused_calls_leave_a_kept_table,
};
use release_laws::{a_paused_release_leaves_the_rest, a_release_leaves_what_the_plain_one_leaves};

/// From a port that stands to a plain value, an element that is about tables or translations comes to its plain meaning, whatever the gate answers: it is done or refused as that
/// is, and leaves the same once it is settled; or the gate paused it, and it will go on.
pub fn an_element_on_tables_comes_to_its_plain_meaning()
    ensures { (v w : PortValue) (x : Solo) (d : ℕ) (e : Element) (awaited : Option ℕ) (answers : List Bool) (answer : Result (Unit {0}) Stop) → IsOnTables e → d ≡ (whose v).domain → x.lives d ≡ 0 →
        Clean v x ⊎ KeepsPin e v x → IsSettled v → Fair v w → IsPerformed v w d e awaited answers answer → Comes (KeepsPin e) w x (performed (whose v) e x) answer }
{
    alone_stays();
    nobody_is_waited_for();
    a_release_leaves_what_the_plain_one_leaves();
    a_paused_release_leaves_the_rest();
    a_first_call_alone_is_paused_by_the_gate_or_comes_to_its_plain_meaning();
    a_call_alone_behind_paused_ones_is_paused_by_the_gate_or_comes_to_its_plain_meaning();
    paused_calls_leave_a_kept_table();
    an_acquisition_that_is_had_touches_no_other_words();
}

/// A pin, from where nothing is left or where one was paused: refused where the frame is pinned with that type, or its tree is not to be had; else the tree is acquired and the frame pinned.
pub fn a_pin_comes_to_its_plain_meaning()
    ensures { (v w : PortValue) (x : Solo) (d f level : ℕ) (awaited : Option ℕ) (answers : List Bool) (answer : Result (Unit {0}) Stop) → 1 ≤ level → level ≤ 4 → d ≡ (whose v).domain → x.lives d ≡ 0 →
        Clean v x ⊎ KeepsTable f (whose v).domain level v x → IsSettled v → Fair v w → IsPerformed v w d (Pin f level) awaited answers answer → Comes (KeepsPin (Pin f level)) w x (pin (whose v).machine (whose v).domain f level x) answer }
{
    an_element_on_tables_comes_to_its_plain_meaning();
}

/// An unpin is done at once, also where the gate pauses the release of the tree: what is left of that is settled by the next call.
pub fn an_unpin_comes_to_its_plain_meaning()
    ensures { (v w : PortValue) (x : Solo) (d f : ℕ) (awaited : Option ℕ) (answers : List Bool) (answer : Result (Unit {0}) Stop) → d ≡ (whose v).domain → x.lives d ≡ 0 → Clean v x → IsSettled v → Fair v w →
        IsPerformed v w d (Unpin f) awaited answers answer → Comes (KeepsPin (Unpin f)) w x (unpin (whose v).machine (whose v).domain f x) answer }
{
    an_element_on_tables_comes_to_its_plain_meaning();
}

/// A new base, of the kernel or of the user, from where nothing is left or where one was paused: its table is acquired, the word names it, and what the word named before is let go.
pub fn a_new_base_comes_to_its_plain_meaning()
    ensures kernel { (v w : PortValue) (x : Solo) (d f : ℕ) (awaited : Option ℕ) (answers : List Bool) (answer : Result (Unit {0}) Stop) → d ≡ (whose v).domain → x.lives d ≡ 0 → Clean v x ⊎ KeepsTop (Some f) v x → IsSettled v → Fair v w →
        IsPerformed v w d (NewBase f) awaited answers answer → Comes (KeepsTop (Some f)) w x (set_base (whose v).machine (whose v).domain 0 (Some f) x) answer }
    ensures user { (v w : PortValue) (x : Solo) (d f : ℕ) (awaited : Option ℕ) (answers : List Bool) (answer : Result (Unit {0}) Stop) → d ≡ (whose v).domain → x.lives d ≡ 0 → Clean v x ⊎ KeepsTop (user_frame f) v x → IsSettled v → Fair v w →
        IsPerformed v w d (NewUserBase f) awaited answers answer → Comes (KeepsTop (user_frame f)) w x (set_base (whose v).machine (whose v).domain 1 (user_frame f) x) answer }
{
    an_element_on_tables_comes_to_its_plain_meaning();
}
