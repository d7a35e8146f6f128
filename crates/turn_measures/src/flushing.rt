//! Waits for flushes, from turn to turn.
ghost use Rattle.std.specs.Prelude.{◌≡◌, ◌≢◌, ◌<◌, ◌≤◌, ℕ, Bool, List, length};
ghost use Rattle.xp_words.specs.Places.{asked_of, flushed_of, run_of};
ghost use Rattle.xp_words.specs.declared.place.Place.TheVariants.{Clock};
ghost use Rattle.xp_words.specs.declared.reply.Pause.TheVariants.{Flush};
ghost use Rattle.xp_board.specs.Readings.{last_clock};
ghost use Rattle.xp_board.specs.Told.{PortValue, told_word};
ghost use Rattle.answer_laws.specs.Alone.{IsAlone};
ghost use Rattle.vcpu_turn.specs.Cpus.{Processing};
ghost use Rattle.vcpu_turn.specs.Turning.{IsTurn};
ghost use Rattle.vcpu_turn.specs.declared.cpu.TurnEnd.{TurnEnd};
ghost use Rattle.vcpu_turn.specs.declared.cpu.TurnEnd.TheVariants as ends;

use answer_laws::alone_stays;

/// A turn that is paused for the flush of a vCPU leaves that one, which is another and runs, asked for a flush that it has not made.
pub fn who_is_waited_for_is_asked()
    ensures other { (c d : Processing) (v w : PortValue) (answers : List Bool) (u stamp found : ℕ) → IsTurn c d (ends.Paused (Flush u stamp found)) v w answers → (u ≢ v.post.vcpu) × (u < length v.post.machine.vcpu_domain) }
    ensures runs { (c d : Processing) (v w : PortValue) (answers : List Bool) (u stamp found : ℕ) → IsAlone v → IsTurn c d (ends.Paused (Flush u stamp found)) v w answers → told_word w (run_of u) ≡ 0 }
    ensures asked { (c d : Processing) (v w : PortValue) (answers : List Bool) (u stamp found : ℕ) → IsAlone v → IsTurn c d (ends.Paused (Flush u stamp found)) v w answers → told_word w (flushed_of u) ≤ told_word w (asked_of u) }
{}

/// A turn of a vCPU that was asked for a flush which it has not made moves the clock on, unless that is at its last value. So the flush is made: the vCPU is flushed past all for which it was asked.
pub fn a_turn_answers_its_ask()
    ensures clock { (c d : Processing) (end : TurnEnd) (v w : PortValue) (answers : List Bool) → IsAlone v → told_word v (flushed_of v.post.vcpu) ≤ told_word v (asked_of v.post.vcpu) → told_word v Clock ≢ last_clock → IsTurn c d end v w answers →
        told_word v Clock < told_word w Clock }
    ensures flushed { (c d : Processing) (end : TurnEnd) (v w : PortValue) (answers : List Bool) → IsAlone v → told_word v (asked_of v.post.vcpu) ≤ told_word v Clock → told_word v Clock ≢ last_clock → IsTurn c d end v w answers →
        told_word v (asked_of v.post.vcpu) < told_word w (flushed_of v.post.vcpu) }
{
    alone_stays();
}

/// No vCPU is asked for a flush past the clock: a turn keeps that so.
pub fn no_ask_is_past_the_clock()
    ensures { (c d : Processing) (end : TurnEnd) (v w : PortValue) (answers : List Bool) (t : ℕ) → IsAlone v → told_word v (asked_of t) ≤ told_word v Clock → IsTurn c d end v w answers → told_word w (asked_of t) ≤ told_word w Clock }
{
    alone_stays();
}
