//! Runs of one vCPU.
ghost use Rattle.std.specs.Prelude.{◌≡◌, ◌<◌, ℕ, true, List, length};
ghost use Rattle.xp_words.specs.declared.ops.Op.{Op};
ghost use Rattle.xp_words.specs.declared.place.Place.TheVariants.{Clock};
ghost use Rattle.course_laws.specs.Courses.{ClockGoesOn};
ghost use Rattle.vcpu_runners.specs.Turns.{Processing, fresh};
ghost use Rattle.trace_text.specs.declared.trace.Trace.{Trace};
ghost use Rattle.trace_text.specs.declared.trace.TurnRun.{TurnRun};
ghost use Rattle.trace_text.specs.WellFormed.{IsWellFormed};
ghost use Rattle.machine_build.specs.Opening.{IsOpening};
ghost use Rattle.xp_board.specs.Readings.{domain_of, last_clock};
ghost use Rattle.xp_board.specs.Told.{PortValue, is_telling, told_word};
ghost use Rattle.xp_preempt.specs.Gates.{Gate};
ghost use Rattle.xp_machine.specs.Ran.{report_at};
ghost use Rattle.xp_machine.specs.Turns.{Stage};
ghost use Rattle.script_law.specs.Scripts.{script_alone};
ghost use Rattle.script_laws.specs.Opening.{OpensScript};
ghost use Rattle.solo_runs.specs.Finishing.{ComeToTheSame, RunComesTo, FinishesAlone, IsFairRun, first_port, opening_solo, owner_in, with_turns};

use opening_rule::opening_words_are_sound;
use script_laws::preemption_is_invisible;

/// Where a machine has one vCPU, that opens its script: nothing is left to be settled, and the words are those of the trace.
pub fn a_vcpu_opens_its_script()
    ensures { (t : Trace) (words : List ℕ) (script : List Op) → IsWellFormed t → IsOpening t words → length t.layout.vcpu_domain ≡ 1 → OpensScript (fresh t.layout.frames 0 (domain_of t.layout 0) script) (first_port t words) (opening_solo t) }
{
    opening_words_are_sound();
}

/// The clock never goes back, so where it stands below its last value none of the steps before found it there.
pub fn a_clock_below_its_last_value_was_never_there()
    ensures { (v w : PortValue) → is_telling v ≡ true → told_word w Clock < last_clock → ClockGoesOn v w }
{}

/// A run in which the only vCPU comes to the end of its script, whatever turns the trace lists and whatever the gate answers, logs what the plain script answers, and closes with words that
/// show what that leaves: both are functions of the machine, the opening words and the script.
///
/// The premises: the run leaves the clock below its last value, and none of its steps finds a reference word with its count at the limit, or comes to a word by a translation that a walk would not find.
pub fn preemption_is_invisible_in_a_run()
    ensures { (t : Trace) (gates : List Gate) (script : List Op) (closed : Stage) (last : Processing) (run : FinishesAlone t gates script closed last) → IsFairRun t run.ran.opened closed →
        RunComesTo t closed last (script_alone (owner_in t) script (opening_solo t)).log (script_alone (owner_in t) script (opening_solo t)).left }
{
    a_vcpu_opens_its_script();
    a_clock_below_its_last_value_was_never_there();
    preemption_is_invisible();
}

/// So two runs that differ in their turn lines, and in what the gates answer, come to the same answers and to words that show one value.
pub fn turns_and_pauses_do_not_matter()
    ensures { (t : Trace) (us : List TurnRun) (gates others : List Gate) (script : List Op) (closed other : Stage) (last ends : Processing) (run : FinishesAlone t gates script closed last) (again : FinishesAlone (with_turns us t) others script other ends) →
        IsFairRun t run.ran.opened closed → IsFairRun (with_turns us t) again.ran.opened other → ComeToTheSame t closed last (with_turns us t) other ends }
{
    preemption_is_invisible_in_a_run();
}

/// And they have one report, byte by byte: the lines of the vCPU with its answers, of the domain, of each frame, and how many frames are free.
pub fn turns_and_pauses_give_one_report()
    ensures { (t : Trace) (us : List TurnRun) (gates others : List Gate) (script : List Op) (closed other : Stage) (last ends : Processing) (run : FinishesAlone t gates script closed last) (again : FinishesAlone (with_turns us t) others script other ends) →
        IsFairRun t run.ran.opened closed → IsFairRun (with_turns us t) again.ran.opened other → report_at t.layout closed ≡ report_at t.layout other }
{
    turns_and_pauses_do_not_matter();
}
