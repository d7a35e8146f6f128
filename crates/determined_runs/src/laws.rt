ghost use Rattle.std.specs.Prelude.{◌≡◌, ℕ, List};
ghost use Rattle.xp_words.specs.Machine.{IsMachine, Machine};
ghost use Rattle.trace_text.specs.TraceOf.{trace_of};
ghost use Rattle.trace_text.specs.declared.trace.Trace.{Trace};
ghost use Rattle.vcpu_runners.specs.Turns.{Processing};
ghost use Rattle.xp_machine.specs.Outcome.{IsAnswer, Shown};
ghost use Rattle.xp_machine.specs.Ran.{RanTo};
ghost use Rattle.xp_machine.specs.Turns.{MakesStagedTurn, Stage};
ghost use Rattle.xp_machine.specs.declared.status.Status.{Status};
ghost use Rattle.xp_preempt.specs.Gates.{Gate};
ghost use Rattle.determined_runs.specs.Shown.{IsOfOneThread};

/// A turn of a vCPU leads from one stage to one: the words, the list of steps, the hands, how far the vCPUs have come, and their gates.
pub fn a_staged_turn_is_determined()
    ensures { (n : Machine) (v : ℕ) (c : Processing) (s a b : Stage) → IsMachine n → MakesStagedTurn n v c s a → MakesStagedTurn n v c s b → a ≡ b }
{}

/// So does a whole run by turns: from one trace and gates that say the same, every run that `run` promises comes to one stage.
pub fn a_run_is_determined()
    ensures { (t : Trace) (gates : List Gate) (a b : Stage) → RanTo t gates a → RanTo t gates b → a ≡ b }
{}

/// So the status that is due for the bytes of a trace, and the text or image that is due with it, are a function of these bytes and of the gates: each program that keeps the contract of `run` prints the
/// same bytes, unless it runs the vCPUs in threads.
pub fn what_is_printed_is_determined()
    ensures { (shown : Shown) (gates : List Gate) (bytes : List ℕ) (v w : Status) (x y : List ℕ) → IsOfOneThread shown → IsAnswer shown gates (trace_of bytes) v x → IsAnswer shown gates (trace_of bytes) w y → (v ≡ w) × (x ≡ y) }
{}
