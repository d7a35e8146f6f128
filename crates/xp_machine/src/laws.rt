//! What holds of the turns of a run, and of the image that it leaves, as contracts of functions that do nothing.
ghost use Rattle.std.specs.Prelude.{ℕ, ◌≡◌, ◌+◌, ◌-◌, ◌<◌, ◌∷◌, ◌++◌, All, List, true, slice_get, codes, Option, Some};
ghost use Rattle.xp_words.specs.Machine.{Machine};
ghost use Rattle.xp_board.specs.Sound.{SoundWords};
ghost use Rattle.machine_image.specs.Image.{image_of};
ghost use Rattle.trace_text.specs.declared.trace.Trace.{Trace};
ghost use Rattle.xp_machine.specs.declared.audits.Showing.{Showing};
ghost use Rattle.xp_machine.specs.declared.audits.Showing.TheVariants.{Line};
ghost use Rattle.xp_machine.specs.declared.status.Status.{Status};
ghost use Rattle.xp_machine.specs.declared.status.Status.TheVariants.{Done};
ghost use Rattle.xp_machine.specs.Audited.{IsJudgement, TellsOf};
ghost use Rattle.xp_machine.specs.Ran.{ImagedTrace};
ghost use Rattle.xp_words.specs.declared.ops.Call.{Call};
ghost use Rattle.xp_words.specs.declared.ops.Op.{Op};
ghost use Rattle.xp_preempt.specs.Gates.{Gate, Heard, last_ask};
ghost use Rattle.vcpu_turn.specs.Asking.{AsksNothingWithin, CallGone, HearsNoWithin, OfJob, ReleasesNothingBy, asks_within, calls_of, elements_of, elements_tried};
ghost use Rattle.vcpu_turn.specs.CallAsks.{CallStops, LastCallStops, asks_before, asks_first};
ghost use Rattle.vcpu_turn.specs.Cpus.{OfCalls, OfOne, job_next, job_of};
ghost use Rattle.vcpu_runners.specs.Turns.{PassesYes, Processing, Task, Tried, begins_at, is_due, next_of, task_of};
ghost use Rattle.xp_machine.specs.Turns.{MakesStagedTurn, Stage, StaysWithin};

use walk_audit::sound_words_break_nothing;

/// In a turn in which no element is done past a yes the gate of that vCPU says no at each ask, but for the last one where the turn is paused for it.
pub fn a_turn_hears_no_until_it_pauses()
    ensures { (n : Machine) (v : ℕ) (c : Processing) (s t : Stage) (m : MakesStagedTurn n v c s t) → HearsNoWithin (elements_tried m.turn) → Heard m.gate.says m.gate.asks m.asked.asks (is_due m.end) }
{}

/// So its operation, which asks it behind each element but the last where it is no multicall, does no more elements than asks up to one at which it says yes, those within elements taken
/// off.
pub fn a_turn_stops_for_its_own_gate()
    ensures { (n : Machine) (v : ℕ) (c : Processing) (s t : Stage) (g : Gate) (op : Op) (task : Option Task) (j : ℕ) → (m : MakesStagedTurn n v c s t) → slice_get s.gates v ≡ Some g → next_of c ≡ Some op → job_of op ≡ OfOne task → HearsNoWithin (elements_tried m.turn) → 0 < j → g.asks + j < last_ask → g.says (g.asks + j) ≡ true → StaysWithin v c s t (begins_at task c.at.done + (j - asks_within (elements_tried m.turn))) }
{}

/// So does each call of a multicall: where none of its elements is done past a yes, it does no more of them than asks of its own up to one at which the gate says yes, those within elements
/// taken off, and asks no more behind that. Where none of the turn is, the gate says no at each ask in front of the last call of the turn, and within the calls before that one.
pub fn a_multicall_stops_for_its_own_gate()
    ensures calls { (n : Machine) (v : ℕ) (c : Processing) (s t : Stage) (g : Gate) (j : ℕ) → (m : MakesStagedTurn n v c s t) → slice_get s.gates v ≡ Some g → (later earlier : List (CallGone c.domain)) (x : CallGone c.domain) → calls_of m.turn ≡ later ++ (x ∷ earlier) → HearsNoWithin (elements_of x) → 0 < j → g.asks + asks_before (asks_first m.turn) earlier x + j < last_ask → g.says (g.asks + asks_before (asks_first m.turn) earlier x + j) ≡ true → CallStops x j }
    ensures last { (n : Machine) (v : ℕ) (c : Processing) (s t : Stage) (g : Gate) (j : ℕ) → (m : MakesStagedTurn n v c s t) → slice_get s.gates v ≡ Some g → HearsNoWithin (elements_tried m.turn) → 0 < j → g.asks + j < last_ask → g.says (g.asks + j) ≡ true → LastCallStops (asks_first m.turn) (calls_of m.turn) j }
{}

/// No element is done past a yes in a turn with an operation that releases nothing, or with a multicall whose calls release nothing; nor in one whose elements ask nothing; nor with any
/// operation, or any call, unless the gate pauses the release of what the old word of an exchanged entry asked, of an unpinned frame, or of the table that a new base replaces
/// (`PassesYes`).
pub fn no_element_is_done_past_a_yes()
    ensures lists { (n : Machine) (v : ℕ) (c : Processing) (s t : Stage) (m : MakesStagedTurn n v c s t) → ReleasesNothingBy (job_next (next_of c)) → HearsNoWithin (elements_tried m.turn) }
    ensures silent { (n : Machine) (v : ℕ) (c : Processing) (s t : Stage) (m : MakesStagedTurn n v c s t) → AsksNothingWithin (elements_tried m.turn) → HearsNoWithin (elements_tried m.turn) }
    ensures passes { (n : Machine) (v : ℕ) (c : Processing) (s t : Stage) (op : Op) (task : Task) (m : MakesStagedTurn n v c s t) → next_of c ≡ Some op → task_of op ≡ Some task → All (λ (x : Tried). PassesYes task x → ⊥) (elements_tried m.turn) → HearsNoWithin (elements_tried m.turn) }
    ensures calls { (n : Machine) (v : ℕ) (c : Processing) (s t : Stage) (op : Op) (calls : List Call) (m : MakesStagedTurn n v c s t) → next_of c ≡ Some op → job_of op ≡ OfCalls calls → All (λ (x : Tried). OfJob PassesYes (OfCalls calls) x → ⊥) (elements_tried m.turn) → HearsNoWithin (elements_tried m.turn) }
{}

/// An image that a run leaves is that of sound words.
pub fn an_image_that_a_run_leaves_is_sound()
    ensures { (t : Trace) (gates : List Gate) (bytes : List ℕ) → ImagedTrace t gates bytes → (words : List ℕ) × SoundWords t.layout words × (bytes ≡ image_of t.layout words) }
{}

/// Such an image is shown, by its verdict or by a picture, as one of those words: its bytes are not refused.
pub fn what_is_shown_of_an_own_image_is_of_sound_words()
    ensures { (showing : Showing) (t : Trace) (gates : List Gate) (bytes : List ℕ) → ImagedTrace t gates bytes → (answer : Status) (text : List ℕ) → IsJudgement showing bytes answer text → (words : List ℕ) × SoundWords t.layout words × TellsOf showing t.layout words answer text }
{}

/// An audit of an image that a run leaves says that it is sound.
pub fn an_audit_of_an_own_image_says_sound()
    ensures { (t : Trace) (gates : List Gate) (bytes : List ℕ) → ImagedTrace t gates bytes → (answer : Status) (text : List ℕ) → IsJudgement Line bytes answer text → (answer ≡ Done) × (text ≡ codes "sound\n") }
{
    sound_words_break_nothing();
}
