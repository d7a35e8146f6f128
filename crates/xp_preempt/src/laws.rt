//! What holds of gates, as functions that do nothing.
ghost use Rattle.std.specs.Prelude.{ℕ, Bool, List, ◌≡◌};
ghost use Rattle.xp_preempt.specs.Gates.{Consulted, Gate, IsCalm, IsPaced, yeses};

/// A gate that says no at each ask answers no, however often it is asked, and says no behind that; so no call is paused for it. It says no behind a pace of 0, too.
pub fn a_calm_gate_answers_no()
    ensures no { (g h : Gate) (answers : List Bool) → IsCalm g → Consulted g h answers → yeses answers ≡ 0 }
    ensures stays { (g h : Gate) (answers : List Bool) → IsCalm g → Consulted g h answers → IsCalm h }
    ensures paced { (g h : Gate) → IsCalm g → IsPaced 0 g h → IsCalm h }
{}
