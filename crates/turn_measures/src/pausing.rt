//! Turns that are paused before their next element is done.
ghost use Rattle.std.specs.Prelude.{◌≡◌, ℕ, Bool, List, Some};
ghost use Rattle.xp_words.specs.declared.ops.Op.{Op};
ghost use Rattle.xp_words.specs.declared.reply.Pause.{Pause};
ghost use Rattle.xp_words.specs.declared.reply.Pause.TheVariants.{Due};
ghost use Rattle.xp_board.specs.Told.{PortValue, told_word};
ghost use Rattle.answer_laws.specs.Alone.{IsAlone};
ghost use Rattle.frame_ranks.specs.Ranks.{AreAllAlive, GetsFurther, GoesForward};
ghost use Rattle.vcpu_turn.specs.Unhindered.{IsUnhindered};
ghost use Rattle.turn_measures.specs.Measures.{DestroysNothing, olds_named};
ghost use Rattle.vcpu_turn.specs.Cpus.{Processing};
ghost use Rattle.vcpu_turn.specs.Turning.{GoesOnWith};
ghost use Rattle.vcpu_turn.specs.declared.cpu.TurnEnd.TheVariants as ends;

use crate::a_settling_that_ends_names_none;
use answer_laws::alone_stays;
use desc_ranks::a_paused_taking_of_pages_goes_forward;
use frame_ranks::a_paused_acquisition_goes_forward;

/// Behind a settling that came to its end, while no domain is dying, an operation that destroys none and is paused before another element or call of it is done lets no frame fall back and names none
/// in an old word. Where its gate pauses it, a frame is further than before.
pub fn a_turn_paused_within_an_element_goes_forward()
    ensures forward { (c d : Processing) (op : Op) (v w : PortValue) (answers : List Bool) (p : Pause) → IsAlone v → DestroysNothing (Some op) → AreAllAlive v.post.machine (told_word v) → olds_named (told_word v) v.post.vcpu ≡ 0 →
        IsUnhindered v.post.machine (ends.Paused p) → GoesOnWith c op d v w answers (ends.Paused p) → d.at.call ≡ c.at.call → d.at.done ≡ c.at.done → GoesForward v.post.machine (told_word v) (told_word w) }
    ensures further { (c d : Processing) (op : Op) (v w : PortValue) (answers : List Bool) → IsAlone v → DestroysNothing (Some op) → AreAllAlive v.post.machine (told_word v) → olds_named (told_word v) v.post.vcpu ≡ 0 →
        GoesOnWith c op d v w answers (ends.Paused Due) → d.at.call ≡ c.at.call → d.at.done ≡ c.at.done → GetsFurther v.post.machine (told_word v) (told_word w) }
{
    alone_stays();
    a_paused_acquisition_goes_forward();
    a_paused_taking_of_pages_goes_forward();
    a_settling_that_ends_names_none();
}
