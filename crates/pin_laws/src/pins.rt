//! Pins by a vCPU that is alone.
ghost use Rattle.std.specs.Prelude.{◌≡◌, ◌↔◌, ◌≤◌, ℕ, Bool, List, Result, Ok, IfErr, length};
ghost use Rattle.xp_words.specs.declared.place.Place.TheVariants.{Kind};
ghost use Rattle.xp_words.specs.declared.reply.Stop.{Stop};
ghost use Rattle.xp_board.specs.Lawful.{Lawful};
ghost use Rattle.xp_board.specs.Readings.{domain_of};
ghost use Rattle.xp_board.specs.Told.{PortValue, told_word};
ghost use Rattle.xp_preempt.specs.Gates.{yeses};
ghost use Rattle.answer_laws.specs.Alone.{IsAlone};
ghost use Rattle.partial_state.specs.Levels.{level_type};
ghost use Rattle.table_law.specs.Lawful.{IsAtRest};
ghost use Rattle.mmuext_ops.specs.Course.{IsPinnedAs, Pinned};
ghost use Rattle.course_laws.specs.Courses.{ClockGoesOn, IsFinal};

use answer_laws::alone_stays;
use course_laws::{an_acquisition_alone_is_decided, an_acquisition_is_had_exactly_where_lawful};

/// The only vCPU, where its gate never says yes and the clock goes on, pins a frame or is refused for what the words of frames
/// say: it is never paused.
pub fn a_pin_alone_is_decided()
    ensures { (v w : PortValue) (d f level : ℕ) (answers : List Bool) (answer : Result (Unit {0}) Stop) → IsAlone v → length v.post.machine.vcpu_domain ≡ 1 → Pinned v w d f level answers answer → yeses answers ≡ 0 → ClockGoesOn v w →
        IfErr answer (λ e. IsFinal e) }
{
    alone_stays();
    an_acquisition_alone_is_decided();
}

/// From words at rest it pins a frame of its domain which is not pinned with that type exactly where the frame's tree is lawful.
pub fn a_pin_is_done_exactly_where_its_tree_is_lawful()
    ensures { (v w : PortValue) (f level : ℕ) (answers : List Bool) (answer : Result (Unit {0}) Stop) → IsAlone v → length v.post.machine.vcpu_domain ≡ 1 → IsAtRest v.post.machine (told_word v) → 1 ≤ level → level ≤ 4 →
        (IsPinnedAs level (told_word v (Kind f)) → ⊥) → Pinned v w (domain_of v.post.machine v.post.vcpu) f level answers answer → yeses answers ≡ 0 → ClockGoesOn v w →
        (Lawful v.post.machine (domain_of v.post.machine v.post.vcpu) (told_word v) f (level_type level) ↔ answer ≡ Ok tt) }
{
    alone_stays();
    an_acquisition_is_had_exactly_where_lawful();
}
