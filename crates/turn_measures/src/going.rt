//! How far a turn brings its operation.
ghost use Rattle.std.specs.Prelude.{◌≡◌, ◌⊎◌, ◌<◌, ℕ, Bool, false, List};
ghost use Rattle.xp_board.specs.Told.{PortValue};
ghost use Rattle.vcpu_turn.specs.Unhindered.{IsSparedIn};
ghost use Rattle.vcpu_turn.specs.Cpus.{Processing, next_of};
ghost use Rattle.vcpu_turn.specs.Turning.{IsTurn};
ghost use Rattle.vcpu_turn.specs.declared.cpu.TurnEnd.{TurnEnd};
ghost use Rattle.turn_measures.specs.Measures.{IsWithin, StaysAt, ahead};

/// A turn that no other vCPU hinders gets ahead: an operation or call is answered, an element is done, or the vCPU retires. Or it is paused, and as much is done as before.
pub fn a_turn_gets_ahead_or_stays()
    ensures within { (c d : Processing) (end : TurnEnd) (v w : PortValue) (answers : List Bool) → IsWithin c → c.retired ≡ false → IsSparedIn v.post.machine (next_of c) end → IsTurn c d end v w answers → IsWithin d }
    ensures script { (c d : Processing) (end : TurnEnd) (v w : PortValue) (answers : List Bool) → IsTurn c d end v w answers → d.script ≡ c.script }
    ensures gets { (c d : Processing) (end : TurnEnd) (v w : PortValue) (answers : List Bool) → IsWithin c → c.retired ≡ false → IsSparedIn v.post.machine (next_of c) end → IsTurn c d end v w answers → (ahead d < ahead c) ⊎ StaysAt c d end }
{}
