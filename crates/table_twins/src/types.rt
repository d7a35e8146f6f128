//! Types of frames, under a reference in hand.
ghost use Rattle.std.specs.Prelude.{◌≡◌, ◌<◌, ℕ, None, Some};
ghost use Rattle.xp_words.specs.KindWords.{kind_fields};
ghost use Rattle.xp_words.specs.Machine.{IsMachine, Machine};
ghost use Rattle.xp_words.specs.declared.place.Place.TheVariants.{Kind};
ghost use Rattle.xp_words.specs.declared.reply.Refusal.{Refusal};
ghost use Rattle.xp_words.specs.declared.reply.Stop.TheVariants.{Refused};
ghost use Rattle.step_maker.specs.Plain.{Words};
ghost use Rattle.step_maker.specs.Twins.{Alike};
ghost use Rattle.frame_types.specs.Plain.{IsTakenBy, taken, type_stop};
ghost use Rattle.frame_types.specs.Standing.{standing_of};
ghost use Rattle.frame_types.specs.declared.taking.Taken.{Taken};
ghost use Rattle.partial_state.specs.Levels.{level_type};
ghost use Rattle.table_law.specs.Plain.{Describes, Plain};
ghost use Rattle.table_twins.specs.Types.{IsReady, IsRefusedPlain, TakesAsPlain};

/// Of a frame that is ready a type is taken as by the plain value, one that is dead comes into work as the plain value begins it,
/// also where it waits for a flush, and what it refuses for is refused there.
#[tactic(auto, using(crate::proofs::Typing::taken_plain, crate::proofs::Typing::refused_plain))]
pub fn a_type_is_taken_as_by_the_plain_value()
    ensures taken { (n : Machine) (m words : Words) (q : Plain) (l owner g : ℕ) (way : Taken) → IsMachine n → Describes n m q → g < n.frames → IsReady n (level_type l) (m (Kind g)) → type_stop g (level_type l) (m (Kind g)) ≡ None →
        IsTakenBy (level_type l) (kind_fields (m (Kind g))) (standing_of (kind_fields (m (Kind g))) (level_type l)) way → Alike words (taken g (level_type l) way m) → TakesAsPlain n l owner g q words way }
    ensures refused { (n : Machine) (m : Words) (q : Plain) (l owner g : ℕ) (x : Refusal) → Describes n m q → g < n.frames → type_stop g (level_type l) (m (Kind g)) ≡ Some (Refused x) → IsRefusedPlain n l owner g q x }
{}
