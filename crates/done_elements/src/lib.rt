//! What replies count as done. These functions do nothing: their contracts are laws.
#![tactic(auto)]

ghost use Rattle.std.specs.Prelude.{◌≡◌, ℕ, List, slice_get, Some};
ghost use Rattle.xp_words.specs.declared.ops.ExtOp.{ExtOp};
ghost use Rattle.xp_words.specs.declared.ops.Op.{Op};
ghost use Rattle.xp_preempt.specs.Gates.{Gate};
ghost use Rattle.thread_board.specs.Values.{BoardValue};
ghost use Rattle.vcpu_turn.specs.Cpus.{Processing};
ghost use Rattle.vcpu_runners.specs.Cpus.{first_cpus};
ghost use Rattle.vcpu_runners.specs.Replayed.{RanInThreads};
ghost use Rattle.trace_text.specs.declared.trace.Trace.{Trace};
ghost use Rattle.trace_text.specs.WellFormed.{IsWellFormed};
ghost use Rattle.xp_machine.specs.Ran.{RanTo};
ghost use Rattle.xp_machine.specs.Turns.{Stage};
ghost use Rattle.done_elements.specs.Replied.{RepliedElement, WasSet};

use opening_rule::opening_words_are_sound;
use sound_rule::{every_run_stays_sound, rested_words_are_sound};

/// Of each pin and each new base that a reply counts as done, in a run in threads: at some moment of the run the frame was pinned as a table of that level, or named by
/// that base, and all that it leads to validated.
pub fn pins_and_bases_of_a_run_in_threads_were_whole()
    ensures { (b : BoardValue) (scripts : List (List Op)) (gates left : List Gate) (words : List ℕ) (cpus : List Processing) (ran : RanInThreads b gates (first_cpus b.machine scripts) words left cpus) (s : ℕ) (c : Processing) (e : ExtOp) →
        slice_get cpus s ≡ Some c → RepliedElement c e → WasSet b.machine b.opening ran.run.one.log s e }
{
    every_run_stays_sound();
    rested_words_are_sound();
}

/// And so in a run by turns, of vCPUs that may be many.
pub fn pins_and_bases_of_a_run_by_turns_were_whole()
    ensures { (t : Trace) (gates : List Gate) (closed : Stage) (ran : RanTo t gates closed) (s : ℕ) (c : Processing) (e : ExtOp) →
        IsWellFormed t → slice_get closed.cpus s ≡ Some c → RepliedElement c e → WasSet t.layout ran.opened closed.board.log s e }
{
    every_run_stays_sound();
    opening_words_are_sound();
}
