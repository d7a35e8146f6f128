//! Exchanges of entries, and the plain exchange.
ghost use Rattle.std.specs.Prelude.{◌≡◌, ◌<◌, ◌≤◌, ℕ, Bool, List, Result, true, length, IfErr};
ghost use Rattle.xp_words.specs.Machine.{IsMachine};
ghost use Rattle.xp_words.specs.declared.reply.Stop.{Stop};
ghost use Rattle.xp_board.specs.Told.{PortValue, is_telling, told_word};
ghost use Rattle.xp_preempt.specs.Gates.{yeses};
ghost use Rattle.step_maker.specs.Answers.{Stops};
ghost use Rattle.answer_laws.specs.Alone.{IsAlone};
ghost use Rattle.table_law.specs.Lawful.{IsAtRest};
ghost use Rattle.table_law.specs.Plain.{plain_of};
ghost use Rattle.course_laws.specs.Courses.{ClockGoesOn, IsOrderly};
ghost use Rattle.foreign_map.specs.declared.owners.Owners.{Owners};
ghost use Rattle.entry_exchange.specs.Asking.{of_exchange};
ghost use Rattle.entry_exchange.specs.Course.{Exchanged};
ghost use Rattle.entry_exchange.specs.declared.exchanging.EntryUpdate.{EntryUpdate};
ghost use Rattle.exchange_laws.specs.Plain.{ComesAsPlain, EndsAsPlain, exchanged_plain};

use answer_laws::{a_call_alone_is_neither_lost_nor_busy, alone_stays, nobody_is_waited_for};
use course_laws::who_is_alone_has_orderly_words;
use release_laws::{a_paused_release_leaves_the_rest, a_release_leaves_what_the_plain_one_leaves};

/// On a board that tells all words, where nothing but the lock on the table is unfinished, an exchange that is done leaves what the plain
/// exchange leaves, which is fine; where the gate pauses the release of what the old word asked, that is left to be settled. One that is
/// refused, but for the clock, is refused there for the same cause.
pub fn an_exchange_leaves_what_the_plain_one_leaves()
    ensures { (v w : PortValue) (x : EntryUpdate) (o : Owners) (answers : List Bool) (answer : Result (Unit {0}) Stop) → IsMachine v.post.machine → is_telling v ≡ true → IsAtRest v.post.machine (told_word v) → IsOrderly v.post.machine (told_word v) →
        1 ≤ x.level → x.level ≤ 4 → x.table < v.post.machine.frames → x.index < 512 → Exchanged v x o w answers answer →
        ComesAsPlain v.post.machine w x.level (exchanged_plain v.post.machine x o (plain_of (told_word v))) answers answer }
{
    a_release_leaves_what_the_plain_one_leaves();
    a_paused_release_leaves_the_rest();
}

/// By one vCPU alone, which never finds the clock at its last value, an exchange is done or refused exactly as the plain one.
pub fn an_exchange_alone_ends_as_the_plain_one()
    ensures { (v w : PortValue) (x : EntryUpdate) (o : Owners) (answers : List Bool) (answer : Result (Unit {0}) Stop) → IsAlone v → length v.post.machine.vcpu_domain ≡ 1 → IsAtRest v.post.machine (told_word v) → ClockGoesOn v w →
        1 ≤ x.level → x.level ≤ 4 → x.table < v.post.machine.frames → x.index < 512 → Exchanged v x o w answers answer → yeses answers ≡ 0 → IfErr answer (λ e. Stops v w (of_exchange x o answer) e) →
        EndsAsPlain v.post.machine w x.level (exchanged_plain v.post.machine x o (plain_of (told_word v))) answer }
{
    alone_stays();
    a_call_alone_is_neither_lost_nor_busy();
    nobody_is_waited_for();
    who_is_alone_has_orderly_words();
    an_exchange_leaves_what_the_plain_one_leaves();
}
