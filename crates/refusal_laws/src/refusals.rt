//! Acquisitions that are refused, and the plain one.
ghost use Rattle.std.specs.Prelude.{◌≡◌, ◌⊎◌, ◌≤◌, ℕ, true, Bool, List, length, Result, Err};
ghost use Rattle.xp_words.specs.Machine.{IsMachine, Machine};
ghost use Rattle.xp_words.specs.declared.reply.Pause.TheVariants.{Due};
ghost use Rattle.xp_words.specs.declared.reply.Refusal.{Refusal};
ghost use Rattle.xp_words.specs.declared.reply.Stop.{Stop};
ghost use Rattle.xp_words.specs.declared.reply.Stop.TheVariants.{Refused, Paused};
ghost use Rattle.xp_board.specs.Told.{PortValue, is_telling, told_word};
ghost use Rattle.answer_laws.specs.Alone.{IsAlone};
ghost use Rattle.table_words.specs.OldWords.{old_place};
ghost use Rattle.table_words.specs.declared.old_words.OldWord.TheVariants.{First};
ghost use Rattle.table_entries.specs.Acquiring.{Acquired};
ghost use Rattle.table_law.specs.Alone.{alone};
ghost use Rattle.table_law.specs.Lawful.{IsAtRest};
ghost use Rattle.table_law.specs.Plain.{Describes, Plain, plain_of};
ghost use Rattle.course_laws.specs.Courses.{ClockGoesOn, IsDecided, IsFinal, IsOrderly};
ghost use Rattle.pause_laws.specs.Calls.{Calls};
ghost use Rattle.release_laws.specs.Pauses.{SettledAtLast};
ghost use Rattle.refusal_laws.specs.Refusals.{ComesTo, IsRefusedAs, Owes, RefusedAtLast};

use course_laws::who_is_alone_has_orderly_words;
use pause_laws::an_acquisition_alone_is_paused_by_the_gate_or_decided;

/// On a board that tells all words, which are at rest, with a first old word that names no frame, an acquisition that is refused for what
/// the words of frames say is refused as the plain one: for the same cause, and leaving the same, but for a table that it parked and
/// named: then the release of that table leaves what the plain acquisition leaves.
pub fn a_refused_acquisition_is_refused_as_the_plain_one()
    ensures { (v w : PortValue) (f owner level : ℕ) (answers : List Bool) (x : Refusal) → IsMachine v.post.machine → is_telling v ≡ true → IsAtRest v.post.machine (told_word v) → IsOrderly v.post.machine (told_word v) →
        told_word v (old_place v.post.vcpu First) ≡ 0 → 1 ≤ level → level ≤ 4 → Acquired v f owner level w answers (Err (Refused x)) → IsFinal (Refused x) → IsRefusedAs v.post.machine w f level x (alone v.post.machine owner level f (plain_of (told_word v))) }
{}

/// What is to be settled is settled, under any gate.
pub fn what_a_refused_acquisition_owes_is_settled()
    ensures { (n : Machine) (v w : PortValue) (f level : ℕ) (q : Plain) → Owes n v f level q → SettledAtLast v w → Describes n (told_word w) q }
{}

/// So it does not matter how often and where the gate pauses an acquisition that is refused, nor what is settled behind it.
pub fn preemption_is_invisible_to_refusals()
    ensures decided { (v w : PortValue) (f owner level : ℕ) (answer : Result ℕ Stop) → IsMachine v.post.machine → is_telling v ≡ true → IsAtRest v.post.machine (told_word v) → IsOrderly v.post.machine (told_word v) →
        told_word v (old_place v.post.vcpu First) ≡ 0 → 1 ≤ level → level ≤ 4 → Calls f owner level v w answer → IsDecided answer → ComesTo v.post.machine w f level (alone v.post.machine owner level f (plain_of (told_word v))) answer }
    ensures settled { (v w : PortValue) (f owner level : ℕ) (x : Refusal) → IsMachine v.post.machine → is_telling v ≡ true → IsAtRest v.post.machine (told_word v) → IsOrderly v.post.machine (told_word v) →
        told_word v (old_place v.post.vcpu First) ≡ 0 → 1 ≤ level → level ≤ 4 → RefusedAtLast f owner level v w x → IsFinal (Refused x) → Describes v.post.machine (told_word w) (alone v.post.machine owner level f (plain_of (told_word v))).left }
{}

/// By the only vCPU, which never finds the clock at its last value, from words at rest, an acquisition is paused by the gate, or comes to
/// what the plain one comes to.
pub fn an_acquisition_alone_comes_to_what_the_plain_one_comes_to()
    ensures { (v w : PortValue) (f owner level : ℕ) (answers : List Bool) (answer : Result ℕ Stop) → IsAlone v → length v.post.machine.vcpu_domain ≡ 1 → IsAtRest v.post.machine (told_word v) → told_word v (old_place v.post.vcpu First) ≡ 0 →
        1 ≤ level → level ≤ 4 → Acquired v f owner level w answers answer → ClockGoesOn v w → (answer ≡ Err (Paused Due)) ⊎ ComesTo v.post.machine w f level (alone v.post.machine owner level f (plain_of (told_word v))) answer }
{
    who_is_alone_has_orderly_words();
    an_acquisition_alone_is_paused_by_the_gate_or_decided();
    preemption_is_invisible_to_refusals();
}
