//! Pins, with the clock's premise on words.
ghost use Rattle.std.specs.Prelude.{◌≡◌, ◌↔◌, ◌<◌, ◌≤◌, ℕ, Bool, List, None, Result, Ok, length};
ghost use Rattle.xp_words.specs.declared.place.Place.TheVariants.{Clock, Kind};
ghost use Rattle.xp_words.specs.declared.reply.Stop.{Stop};
ghost use Rattle.xp_board.specs.Lawful.{Lawful};
ghost use Rattle.xp_board.specs.Readings.{domain_of, last_clock};
ghost use Rattle.xp_board.specs.Told.{PortValue, told_word};
ghost use Rattle.xp_preempt.specs.Gates.{yeses};
ghost use Rattle.answer_laws.specs.Alone.{IsAlone};
ghost use Rattle.partial_state.specs.Levels.{level_type};
ghost use Rattle.table_law.specs.Lawful.{IsAtRest};
ghost use Rattle.mmuext_ops.specs.Course.{IsPinnedAs, Pinned};
ghost use Rattle.vcpu_turn.specs.Cpus.{Processing, reply_of};
ghost use Rattle.vcpu_turn.specs.Turning.{IsTurn};
ghost use Rattle.vcpu_turn.specs.declared.cpu.TurnEnd.{TurnEnd};
ghost use Rattle.vcpu_turn.specs.declared.cpu.TurnEnd.TheVariants as ends;
ghost use Rattle.solo_runs.specs.Pins.{BeginsWithPin};

use crate::runs::a_clock_below_its_last_value_was_never_there;
use answer_laws::alone_stays;
use pin_laws::a_pin_is_done_exactly_where_its_tree_is_lawful;

/// From words at rest the only vCPU, where its gate never says yes, pins a frame of its domain which is not pinned with that type exactly where the frame's tree is lawful, if the clock
/// stands below its last value behind the pin. Nothing is asked of the steps.
pub fn a_pin_that_leaves_the_clock_room_is_done_exactly_where_its_tree_is_lawful()
    ensures { (v w : PortValue) (f level : ℕ) (answers : List Bool) (answer : Result (Unit {0}) Stop) → IsAlone v → length v.post.machine.vcpu_domain ≡ 1 → IsAtRest v.post.machine (told_word v) → 1 ≤ level → level ≤ 4 →
        (IsPinnedAs level (told_word v (Kind f)) → ⊥) → Pinned v w (domain_of v.post.machine v.post.vcpu) f level answers answer → yeses answers ≡ 0 → told_word w Clock < last_clock →
        (Lawful v.post.machine (domain_of v.post.machine v.post.vcpu) (told_word v) f (level_type level) ↔ answer ≡ Ok tt) }
{
    a_clock_below_its_last_value_was_never_there();
    a_pin_is_done_exactly_where_its_tree_is_lawful();
}

/// In a turn of the only vCPU, whose next operation is one pin of a frame of the own domain: from words at rest, where nothing is left to be settled, the domain lives, and the frame is not
/// pinned with that type, the turn answers that the pin is done exactly where the frame's tree is lawful. The gate never says yes, and the clock stands below its last value behind the
/// turn; nothing is asked of the steps.
pub fn a_turn_pins_a_frame_exactly_where_its_tree_is_lawful()
    ensures { (c d : Processing) (end : TurnEnd) (v w : PortValue) (f level : ℕ) (answers : List Bool) → BeginsWithPin v c f level → IsTurn c d end v w answers → yeses answers ≡ 0 → told_word w Clock < last_clock →
        (Lawful v.post.machine (domain_of v.post.machine v.post.vcpu) (told_word v) f (level_type level) ↔ end ≡ ends.Answered (reply_of 1 0 None)) }
{
    alone_stays();
    a_clock_below_its_last_value_was_never_there();
    a_pin_is_done_exactly_where_its_tree_is_lawful();
}
