//! Acquisitions of page tables by their courses.
ghost use Rattle.std.specs.Prelude.{◌≡◌, ℕ, Bool, List, Result, if◌then◌else◌};
ghost use Rattle.xp_words.specs.declared.reply.Stop.{Stop};
ghost use Rattle.xp_board.specs.Told.{PortValue};
ghost use Rattle.table_entries.specs.Acquiring.{Acquired};
ghost use Rattle.table_entries.specs.Ending.{is_due_answer, is_paused_answer};
ghost use Rattle.xp_preempt.specs.Gates.{ends_yes, yeses};
ghost use Rattle.acquisition_laws.specs.Forward.{Forward};
ghost use Rattle.acquisition_laws.specs.Leaving.{LeftWell};

/// Whoever acquires a table, and whatever the others do meanwhile: no entry is given back, and none is read but the next one of a table in
/// work, or the last recorded one. A `kept` mark goes on the frame itself, where it is paused; and on no other but one that a recorded entry
/// asks. No table is left dead but for such an entry.
pub fn an_acquisition_goes_forward()
    ensures forward { (v w : PortValue) (f owner level : ℕ) (answers : List Bool) (answer : Result ℕ Stop) → Acquired v f owner level w answers answer → Forward v w }
    ensures leaves { (v w : PortValue) (f owner level : ℕ) (answers : List Bool) (answer : Result ℕ Stop) → Acquired v f owner level w answers answer → LeftWell v w (is_paused_answer answer) f }
{}

/// Whoever acquires a table, and whatever gate is asked: of its answers none is yes but the newest, and that one where the acquisition is
/// paused for the gate. So the gate says yes once more exactly there, and each earlier ask was answered no.
pub fn an_acquisition_stops_at_its_first_yes()
    ensures once { (v w : PortValue) (f owner level : ℕ) (answers : List Bool) (answer : Result ℕ Stop) → Acquired v f owner level w answers answer → yeses answers ≡ (if is_due_answer answer then 1 else 0) }
    ensures last { (v w : PortValue) (f owner level : ℕ) (answers : List Bool) (answer : Result ℕ Stop) → Acquired v f owner level w answers answer → ends_yes answers ≡ is_due_answer answer }
{}
