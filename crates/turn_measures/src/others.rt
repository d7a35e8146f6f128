//! What a turn leaves of the others.
ghost use Rattle.std.specs.Prelude.{Bool, List};
ghost use Rattle.xp_board.specs.Told.{PortValue, told_word};
ghost use Rattle.answer_laws.specs.Alone.{IsAlone};
ghost use Rattle.vcpu_turn.specs.Cpus.{Processing, next_of};
ghost use Rattle.vcpu_turn.specs.Turning.{IsTurn};
ghost use Rattle.vcpu_turn.specs.declared.cpu.TurnEnd.{TurnEnd};
ghost use Rattle.turn_measures.specs.Measures.{DestroysNothing, LeavesOthers};

/// A turn of a vCPU that is alone, and whose next operation destroys no domain, changes no word of another vCPU but that which asks for its flush, nor the life of a domain; and the clock
/// does not go back.
pub fn a_turn_leaves_the_others()
    ensures { (c d : Processing) (end : TurnEnd) (v w : PortValue) (answers : List Bool) → IsAlone v → DestroysNothing (next_of c) → IsTurn c d end v w answers → LeavesOthers v.post.machine v.post.vcpu (told_word v) (told_word w) }
{}
