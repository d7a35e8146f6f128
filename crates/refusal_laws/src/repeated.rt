//! Acquisitions that the gate pauses again and again, from words that any plain value describes.
ghost use Rattle.std.specs.Prelude.{◌≡◌, ◌⊎◌, ◌≤◌, ℕ, true, Bool, List, length, Ok, Err, Result};
ghost use Rattle.xp_words.specs.Machine.{IsMachine};
ghost use Rattle.xp_words.specs.declared.place.Place.{Place};
ghost use Rattle.xp_words.specs.declared.reply.Pause.TheVariants.{Due};
ghost use Rattle.xp_words.specs.declared.reply.Stop.{Stop};
ghost use Rattle.xp_words.specs.declared.reply.Stop.TheVariants.{Paused};
ghost use Rattle.xp_board.specs.Told.{PortValue, is_telling, told_word};
ghost use Rattle.answer_laws.specs.Alone.{IsAlone};
ghost use Rattle.table_words.specs.OldWords.{old_place};
ghost use Rattle.table_words.specs.declared.old_words.OldWord.TheVariants.{First};
ghost use Rattle.table_entries.specs.Acquiring.{Acquired};
ghost use Rattle.table_law.specs.Alone.{alone};
ghost use Rattle.table_law.specs.Lawful.{IsAtRest};
ghost use Rattle.table_law.specs.Plain.{Describes, Plain};
ghost use Rattle.course_laws.specs.Courses.{ClockGoesOn, IsDecided, IsOrderly};
ghost use Rattle.pause_laws.specs.Calls.{Calls, HasRoom};
ghost use Rattle.refusal_laws.specs.Refusals.{ComesTo};
ghost use Rattle.refusal_laws.specs.Repeated.{IsDeadFrame, IsKeptTable, IsUntouched, PausedCalls};

use course_laws::who_is_alone_has_orderly_words;
use pause_laws::an_acquisition_alone_is_paused_by_the_gate_or_decided;

/// An acquisition that is decided, however often the gate paused it before, comes to what the plain one makes of any plain value that
/// describes the words before the first call.
pub fn an_acquisition_from_described_words_comes_to_its_plain_meaning()
    ensures { (v w : PortValue) (f owner level : ℕ) (p : Plain) (answer : Result ℕ Stop) → IsMachine v.post.machine → is_telling v ≡ true → IsAtRest v.post.machine (told_word v) → IsOrderly v.post.machine (told_word v) →
        told_word v (old_place v.post.vcpu First) ≡ 0 → 1 ≤ level → level ≤ 4 → Describes v.post.machine (told_word v) p → Calls f owner level v w answer → IsDecided answer → ComesTo v.post.machine w f level (alone v.post.machine owner level f p) answer }
{}

/// Paused calls and one more, which finds room, are a list of calls.
pub fn paused_calls_and_one_more()
    ensures { (v u w : PortValue) (f owner level : ℕ) (answers : List Bool) (answer : Result ℕ Stop) → PausedCalls f owner level v u → Acquired u f owner level w answers answer → HasRoom u w → Calls f owner level v w answer }
{}

/// Behind paused calls the frame is partial with its mark, and the owner's; no cell, no machine-to-physical word, no word of a domain, and no
/// word of a vCPU but those of flushes is other than before the first of them. And that one found the frame dead, and not pinned.
pub fn paused_calls_leave_a_kept_table()
    ensures leaves { (v u : PortValue) (f owner level : ℕ) (p : Plain) → IsMachine v.post.machine → is_telling v ≡ true → IsAtRest v.post.machine (told_word v) → IsOrderly v.post.machine (told_word v) → 1 ≤ level → level ≤ 4 →
        Describes v.post.machine (told_word v) p → PausedCalls f owner level v u → IsKeptTable f owner level v u }
    ensures found { (v u : PortValue) (f owner level : ℕ) (p : Plain) → IsMachine v.post.machine → is_telling v ≡ true → IsAtRest v.post.machine (told_word v) → IsOrderly v.post.machine (told_word v) → 1 ≤ level → level ≤ 4 →
        Describes v.post.machine (told_word v) p → PausedCalls f owner level v u → IsDeadFrame v.post.machine p f owner }
    ensures telling { (v u : PortValue) (f owner level : ℕ) → PausedCalls f owner level v u → is_telling v ≡ true }
{}

/// An acquisition that is had changes no cell, no machine-to-physical word, no word of a domain, and no word of a vCPU but those of flushes.
pub fn an_acquisition_that_is_had_touches_no_other_words()
    ensures { (v w : PortValue) (f owner level g : ℕ) (answers : List Bool) (q : Place) → is_telling v ≡ true → Acquired v f owner level w answers (Ok g) → IsUntouched q → told_word w q ≡ told_word v q }
{}

/// By the only vCPU, which never finds the clock at its last value, a first call is paused by the gate, or comes to what the plain one comes to.
pub fn a_first_call_alone_is_paused_by_the_gate_or_comes_to_its_plain_meaning()
    ensures { (v w : PortValue) (f owner level : ℕ) (p : Plain) (answers : List Bool) (answer : Result ℕ Stop) → IsAlone v → length v.post.machine.vcpu_domain ≡ 1 → IsAtRest v.post.machine (told_word v) →
        told_word v (old_place v.post.vcpu First) ≡ 0 → 1 ≤ level → level ≤ 4 → Describes v.post.machine (told_word v) p → Acquired v f owner level w answers answer → ClockGoesOn v w →
        (answer ≡ Err (Paused Due)) ⊎ ComesTo v.post.machine w f level (alone v.post.machine owner level f p) answer }
{
    who_is_alone_has_orderly_words();
    an_acquisition_alone_is_paused_by_the_gate_or_decided();
    an_acquisition_from_described_words_comes_to_its_plain_meaning();
}

/// And so is one behind paused calls, which finds room: it comes to what the plain one makes of the words before the first of them.
pub fn a_call_alone_behind_paused_ones_is_paused_by_the_gate_or_comes_to_its_plain_meaning()
    ensures { (v u w : PortValue) (f owner level : ℕ) (p : Plain) (answers : List Bool) (answer : Result ℕ Stop) → IsMachine v.post.machine → IsAtRest v.post.machine (told_word v) → IsOrderly v.post.machine (told_word v) →
        told_word v (old_place v.post.vcpu First) ≡ 0 → 1 ≤ level → level ≤ 4 → Describes v.post.machine (told_word v) p → PausedCalls f owner level v u → IsAlone u → length u.post.machine.vcpu_domain ≡ 1 →
        Acquired u f owner level w answers answer → ClockGoesOn u w → HasRoom u w → (answer ≡ Err (Paused Due)) ⊎ ComesTo v.post.machine w f level (alone v.post.machine owner level f p) answer }
{
    an_acquisition_alone_is_paused_by_the_gate_or_decided();
    an_acquisition_from_described_words_comes_to_its_plain_meaning();
}
