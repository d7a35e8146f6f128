ghost use Rattle.std.specs.Prelude.{◌≡◌, ◌<◌, ℕ, List, Option, Result, length};
ghost use Rattle.xp_words.specs.Machine.{Machine};
ghost use Rattle.xp_words.specs.declared.reply.Stop.{Stop};
ghost use Rattle.xp_board.specs.Told.{PortValue, Post};
ghost use Rattle.step_maker.specs.Visits.{Visit};
ghost use Rattle.frame_claims.specs.Found.{ClaimsBy};
ghost use Rattle.reservations.specs.Extents.{Reserves};
ghost use Rattle.reservations.specs.declared.extents.Extent.{Extent};
ghost use Rattle.reservations.specs.Returning.{ReturnsBy};
ghost use Rattle.determined_laws.specs.Courses.{Alike};
ghost use Rattle.determined_laws.specs.Forks.{Tie};

/// A block of frames that is taken for a domain, with its count of pages, its choice and its wait (frame_claims `claim`).
pub fn a_claim_is_determined()
    ensures { (q : Post) (d k : ℕ) (g : Option ℕ) (a b : Result ℕ Stop) (us vs : List Visit) → q.vcpu < length q.machine.vcpu_domain → ClaimsBy q d k g a us → ClaimsBy q d k g b vs → Tie us vs (a ≡ b) }
{}

/// One frame that is given back (reservations `return_frame`).
pub fn a_return_is_determined()
    ensures { (n : Machine) (owner f : ℕ) (a b : Result (Unit {0}) Stop) (us vs : List Visit) → ReturnsBy n owner f a us → ReturnsBy n owner f b vs → Tie us vs (a ≡ b) }
{}

/// One extent of `memory_op`: a block that is taken, or frames that are given back, and how many are then (reservations `reserve`).
pub fn an_extent_is_determined()
    ensures { (v w x : PortValue) (owner size : ℕ) (extent : Extent) (from to other : ℕ) (a b : Result (Option ℕ) Stop) → Reserves owner size extent from v to w a → Reserves owner size extent from v other x b →
        Alike v w x ((to ≡ other) × (a ≡ b)) }
{}
