ghost use Rattle.std.specs.Prelude.{◌≡◌, ◌<◌, ℕ, true, Bool, List, length, Result};
ghost use Rattle.xp_words.specs.Machine.{IsMachine};
ghost use Rattle.xp_words.specs.declared.ops.Call.{Call};
ghost use Rattle.xp_words.specs.declared.reply.LogLine.{LogLine};
ghost use Rattle.xp_words.specs.declared.reply.Stop.{Stop};
ghost use Rattle.xp_board.specs.Told.{PortValue, is_telling};
ghost use Rattle.xp_preempt.specs.Gates.{GivesAnswers};
ghost use Rattle.vcpu_turn.specs.Calls.{WentBy, WorksCalls};
ghost use Rattle.vcpu_turn.specs.Cpus.{Job, Processing};
ghost use Rattle.vcpu_turn.specs.Turning.{IsTurn};
ghost use Rattle.vcpu_turn.specs.declared.cpu.Progress.{Progress};
ghost use Rattle.vcpu_turn.specs.declared.cpu.TurnEnd.{TurnEnd};
ghost use Rattle.determined_laws.specs.Courses.{Alike, Forked};

/// The calls of a multicall that a turn answers.
pub fn a_multicall_is_determined()
    ensures { (says : ℕ → Bool) (n d : ℕ) (calls : List Call) (op : ℕ) (v : PortValue) (from : Progress) (log : List LogLine) (to by : Progress) (w x : PortValue) (behind late : List LogLine) (answers others : List Bool) (a b : Result (Unit {0}) Stop) → GivesAnswers says n answers → GivesAnswers says n others → WorksCalls d calls op v from log to w behind answers a → WorksCalls d calls op v from log by x late others b → Alike v w x ((to ≡ by) × (behind ≡ late) × (answers ≡ others) × (a ≡ b)) }
{}

/// What a turn does of an operation: one of a list, of calls, or a destruction.
pub fn an_operation_is_determined()
    ensures { (says : ℕ → Bool) (n d : ℕ) (job : Job) (op : ℕ) (v : PortValue) (from to by : Progress) (w x : PortValue) (log behind late : List LogLine) (answers others : List Bool) (a b : Result ℕ Stop) → IsMachine v.post.machine → v.post.vcpu < length v.post.machine.vcpu_domain → GivesAnswers says n answers → GivesAnswers says n others → WentBy d job op v from to w log behind answers a → WentBy d job op v from by x log late others b → Alike v w x ((to ≡ by) × (behind ≡ late) × (answers ≡ others) × (a ≡ b)) }
{}

/// Two turns of one vCPU from one port, with the answers of one gate, come to one port, and leave the vCPU, its log and its place the same: unless at some step that both made they
/// found different words.
pub fn a_turn_is_determined()
    ensures { (c one two : Processing) (end stop : TurnEnd) (v w x : PortValue) (answers others : List Bool) (says : ℕ → Bool) (n : ℕ) → IsMachine v.post.machine → GivesAnswers says n answers → GivesAnswers says n others → IsTurn c one end v w answers → IsTurn c two stop v x others → Alike v w x ((one ≡ two) × (end ≡ stop) × (answers ≡ others)) }
{}

/// On a board that tells all words they find the same: there is one turn.
pub fn a_turn_on_told_words_is_one()
    ensures { (c one two : Processing) (end stop : TurnEnd) (v w x : PortValue) (answers others : List Bool) (says : ℕ → Bool) (n : ℕ) → is_telling v ≡ true → IsMachine v.post.machine → GivesAnswers says n answers → GivesAnswers says n others → IsTurn c one end v w answers → IsTurn c two stop v x others → (w ≡ x) × (one ≡ two) × (end ≡ stop) × (answers ≡ others) }
{}

/// On such a board no two courses fork.
pub fn told_courses_never_fork()
    ensures { (v w x : PortValue) → is_telling v ≡ true → Forked v w x → ⊥ }
{}
