//! References, taken and given back.
ghost use Rattle.std.specs.Prelude.{◌≡◌, ◌<◌, ℕ, None, Some};
ghost use Rattle.xp_words.specs.Machine.{IsMachine, Machine};
ghost use Rattle.xp_words.specs.declared.place.Place.TheVariants.{Refs};
ghost use Rattle.step_maker.specs.Plain.{Words};
ghost use Rattle.frame_words.specs.Plain.{got, put, refer};
ghost use Rattle.table_law.specs.Alone.{take_reference};
ghost use Rattle.table_law.specs.Plain.{Describes, Plain, Share, reference_back};
ghost use Rattle.table_twins.specs.Answers.{IsSameAnswer};

/// A reference to a frame is refused where the plain value refuses it, for the same cause; else it leaves what that leaves.
#[tactic(auto, using(crate::proofs::Referring::same_answer, crate::proofs::Referring::same_taken))]
pub fn a_reference_is_taken_as_by_the_plain_value()
    ensures answers { (n : Machine) (m : Words) (p : Plain) (owner g : ℕ) → Describes n m p → IsSameAnswer (refer n owner g (m (Refs g))) (take_reference n owner g p).refusal }
    ensures leaves { (n : Machine) (m : Words) (p : Plain) (owner g : ℕ) → IsMachine n → Describes n m p → refer n owner g (m (Refs g)) ≡ None → Describes n (got g m) (take_reference n owner g p).left }
{}

/// A reference to an owned frame is given back as on the plain value: the last one frees the frame.
#[tactic(auto, using(crate::proofs::Sharing::same_back))]
pub fn a_reference_is_given_back_as_by_the_plain_value()
    ensures { (n : Machine) (m : Words) (p : Plain) (g : ℕ) (s : Share) → Describes n m p → g < n.frames → p.shares g ≡ Some s → Describes n (put g m) (reference_back g p) }
{}
