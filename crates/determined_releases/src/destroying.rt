ghost use Rattle.std.specs.Prelude.{◌≡◌, ◌<◌, ℕ, Bool, List, Result, length};
ghost use Rattle.xp_words.specs.declared.reply.Stop.{Stop};
ghost use Rattle.xp_preempt.specs.Gates.{GivesAnswers};
ghost use Rattle.xp_board.specs.Told.{PortValue};
ghost use Rattle.domain_destroy.specs.Clearing.{ClearsFrame};
ghost use Rattle.domain_destroy.specs.Course.{Destroys, LeftFrame, own_of};
ghost use Rattle.domain_destroy.specs.Emptying.{EmptiesOne};
ghost use Rattle.domain_destroy.specs.declared.place.DestroyAt.{DestroyAt};
ghost use Rattle.determined_laws.specs.Courses.{Alike};

/// The words of a stopped vCPU, emptied, and what they named released (domain_destroy).
#[tactic(auto, using(crate::proofs::Emptying::one_alike))]
pub fn a_vcpu_without_its_words_is_determined()
    ensures { (says : ℕ → Bool) (n d vcpu : ℕ) (v w x : PortValue) (answers others : List Bool) (a b : Result Bool Stop) → GivesAnswers says n answers → GivesAnswers says n others → EmptiesOne d vcpu v w answers a → EmptiesOne d vcpu v x others b → Alike v w x ((answers ≡ others) × (a ≡ b)) }
{}

/// The marks of a frame, taken off, and what they held released (domain_destroy).
#[tactic(auto, using(crate::proofs::Clearing::clears_alike))]
pub fn a_frame_without_its_marks_is_determined()
    ensures { (says : ℕ → Bool) (n d frame : ℕ) (v w x : PortValue) (answers others : List Bool) (a b : Result Bool Stop) → GivesAnswers says n answers → GivesAnswers says n others → ClearsFrame d frame v w answers a → ClearsFrame d frame v x others b → Alike v w x ((answers ≡ others) × (a ≡ b)) }
{}

/// A destruction from a place on (domain_destroy `destroy_domain`): where it comes to, the frames that it lists, and its answer. The own domain is one of the machine's.
#[tactic(auto, using(crate::proofs::Destroys::destroys_alike))]
pub fn a_destruction_is_determined()
    ensures { (says : ℕ → Bool) (n d : ℕ) (v w x : PortValue) (at to by : DestroyAt) (listed some : List LeftFrame) (answers others : List Bool) (a b : Result ℕ Stop) → own_of v.post < length v.post.machine.page_limit → GivesAnswers says n answers → GivesAnswers says n others → Destroys d v at w to listed answers a → Destroys d v at x by some others b → Alike v w x ((to ≡ by) × (listed ≡ some) × (answers ≡ others) × (a ≡ b)) }
{}
