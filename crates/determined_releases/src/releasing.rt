ghost use Rattle.std.specs.Prelude.{◌≡◌, ℕ, Bool, List, Option, Result};
ghost use Rattle.xp_words.specs.Machine.{Machine};
ghost use Rattle.xp_words.specs.declared.kind.PageType.{PageType};
ghost use Rattle.xp_words.specs.declared.reply.Stop.{Stop};
ghost use Rattle.xp_preempt.specs.Gates.{GivesAnswers};
ghost use Rattle.xp_board.specs.Told.{PortValue};
ghost use Rattle.step_maker.specs.Visits.{Visit};
ghost use Rattle.table_releases.specs.Found.{ReleasedBy};
ghost use Rattle.table_releases.specs.declared.entries.Released.{Released};
ghost use Rattle.level_release.specs.Course.{ReleasedWithin, Settled, left_released, left_settled};
ghost use Rattle.table_bases.specs.Course.{SetsBase};
ghost use Rattle.table_bases.specs.declared.words.Base.{Base};
ghost use Rattle.determined_laws.specs.Courses.{Alike};
ghost use Rattle.determined_laws.specs.Forks.{Tie};

/// The last recorded entry of a table, given back (table_releases).
#[tactic(auto, using(crate::proofs::Entries::released_tie))]
pub fn an_entry_released_is_determined()
    ensures { (n : Machine) (frame index : ℕ) (kind : PageType) (a b : Result Released Stop) (us vs : List Visit) → ReleasedBy n frame index kind a us → ReleasedBy n frame index kind b vs → Tie us vs (a ≡ b) }
{}

/// A type that is given back, and of a table all in it (level_release `release_within`): with what is left to do where the gate paused it.
#[tactic(auto, using(crate::proofs::Released::released_alike))]
pub fn a_release_is_determined()
    ensures { (says : ℕ → Bool) (n : ℕ) (below : Option ℕ) (v w x : PortValue) (frame : ℕ) (kind : PageType) (answers others : List Bool) (a b : Result (Unit {0}) Stop) → GivesAnswers says n answers → GivesAnswers says n others → (p : ReleasedWithin below v frame kind w answers a) → (q : ReleasedWithin below v frame kind x others b) → Alike v w x ((answers ≡ others) × (a ≡ b) × (left_released p ≡ left_released q)) }
{}

/// What an earlier turn left in the own old words, settled (level_release `settle`).
#[tactic(auto, using(crate::proofs::Settled::settled_alike))]
pub fn a_settling_is_determined()
    ensures { (says : ℕ → Bool) (n : ℕ) (below : Option ℕ) (v w x : PortValue) (answers others : List Bool) (a b : Result (Unit {0}) Stop) → GivesAnswers says n answers → GivesAnswers says n others → (p : Settled below v w answers a) → (q : Settled below v x others b) → Alike v w x ((answers ≡ others) × (a ≡ b) × (left_settled p ≡ left_settled q)) }
{}

/// A base that is set (table_bases `set_base`): its table acquired, the word stored, the own translations flushed, and the old table released.
#[tactic(auto, using(crate::proofs::Bases::sets_base_alike))]
pub fn a_base_is_determined()
    ensures { (says : ℕ → Bool) (n : ℕ) (v w x : PortValue) (base : Base) (new : Option ℕ) (answers others : List Bool) (a b : Result (Unit {0}) Stop) → GivesAnswers says n answers → GivesAnswers says n others → SetsBase v w base new answers a → SetsBase v x base new others b → Alike v w x ((answers ≡ others) × (a ≡ b)) }
{}
