//! Acquisitions by a vCPU that is alone.
ghost use Rattle.std.specs.Prelude.{◌≡◌, ◌↔◌, ◌⊎◌, ◌≤◌, ℕ, Bool, List, Result, length};
ghost use Rattle.xp_words.specs.declared.reply.Stop.{Stop};
ghost use Rattle.xp_board.specs.Lawful.{Lawful};
ghost use Rattle.xp_board.specs.Told.{PortValue, told_word};
ghost use Rattle.xp_preempt.specs.Gates.{yeses};
ghost use Rattle.answer_laws.specs.Alone.{IsAlone};
ghost use Rattle.partial_state.specs.Levels.{level_type};
ghost use Rattle.table_law.specs.Lawful.{IsAtRest};
ghost use Rattle.table_entries.specs.Acquiring.{Acquired};
ghost use Rattle.course_laws.specs.Courses.{ClockGoesOn, IsAwaiting, IsDecided, IsHad, IsOrderly};

use crate::lawful::a_decided_acquisition_is_had_exactly_where_lawful;
use answer_laws::{a_call_alone_is_neither_lost_nor_busy, alone_stays, nobody_is_waited_for};

/// The words that the board of a vCPU tells which is alone are orderly, since they are sound.
#[tactic(auto, using(crate::proofs::Awaiting::alone_orderly))]
pub fn who_is_alone_has_orderly_words()
    ensures { (v : PortValue) → IsAlone v → IsOrderly v.post.machine (told_word v) }
{}

/// Alone, and with a gate that never says yes, an acquisition pauses only for a flush of another vCPU, where there is one. So it is
/// had or refused, and that not for the clock where the clock goes on.
pub fn an_acquisition_alone_is_decided()
    ensures several { (v w : PortValue) (f owner level : ℕ) (answers : List Bool) (answer : Result ℕ Stop) → IsAlone v → Acquired v f owner level w answers answer → yeses answers ≡ 0 → ClockGoesOn v w → IsDecided answer ⊎ IsAwaiting answer }
    ensures one { (v w : PortValue) (f owner level : ℕ) (answers : List Bool) (answer : Result ℕ Stop) → IsAlone v → length v.post.machine.vcpu_domain ≡ 1 → Acquired v f owner level w answers answer → yeses answers ≡ 0 → ClockGoesOn v w → IsDecided answer }
{
    alone_stays();
    a_call_alone_is_neither_lost_nor_busy();
    nobody_is_waited_for();
}

/// By one vCPU alone, from words at rest, an acquisition whose gate never says yes is had exactly where the frame's tree is lawful.
/// Beside others that hold nothing it may also wait for a flush of one of them.
pub fn an_acquisition_is_had_exactly_where_lawful()
    ensures one { (v w : PortValue) (f owner level : ℕ) (answers : List Bool) (answer : Result ℕ Stop) → IsAlone v → length v.post.machine.vcpu_domain ≡ 1 → IsAtRest v.post.machine (told_word v) → 1 ≤ level → level ≤ 4 →
        Acquired v f owner level w answers answer → yeses answers ≡ 0 → ClockGoesOn v w → (Lawful v.post.machine owner (told_word v) f (level_type level) ↔ IsHad answer) }
    ensures several { (v w : PortValue) (f owner level : ℕ) (answers : List Bool) (answer : Result ℕ Stop) → IsAlone v → IsAtRest v.post.machine (told_word v) → 1 ≤ level → level ≤ 4 →
        Acquired v f owner level w answers answer → yeses answers ≡ 0 → ClockGoesOn v w → (Lawful v.post.machine owner (told_word v) f (level_type level) ↔ IsHad answer) ⊎ IsAwaiting answer }
{
    who_is_alone_has_orderly_words();
    an_acquisition_alone_is_decided();
    a_decided_acquisition_is_had_exactly_where_lawful();
}
