//! The words of the stopped vCPUs of a domain that is destroyed, each emptied, and what it named released.
ghost use Rattle.std.specs.Prelude.{ℕ, ◌≡◌, ◌+◌, ◌<◌, ◌≤◌, ◌==◌, [], length, true, false, IfOk, IsTrue};
ghost use Rattle.xp_words.specs.declared.place.Place.TheVariants.{Vcpu};
ghost use Rattle.xp_board.specs.Readings.{domain_of, is_context};
ghost use Rattle.step_maker.specs.Holds.{Rests};
ghost use Rattle.step_maker.specs.Moves.{Met};
ghost use Rattle.step_maker.specs.Pauses.{HasPassed, LeftAs};
ghost use Rattle.level_release.specs.Asking.{is_due_answer};
ghost use Rattle.life_words.specs.Names.{MayEmptyWord};
ghost use Rattle.domain_destroy.specs.Asking.{of_domain};
ghost use Rattle.domain_destroy.specs.Coming.{FoundEmpty};
ghost use Rattle.domain_destroy.specs.Destroying.{PartWent, PhaseWent};
ghost use Rattle.domain_destroy.specs.Emptying.{EmptiesOne, EmptiesTo, EmptiesWord, NamesNone, word_at};
ghost use Rattle.domain_destroy.specs.declared.place.DestroyAt.TheVariants.{Empties};
ghost use Rattle.xp_preempt.specs.Gates.{Gated};

use crate::releasing::let_go;
use crate::stopping::is_of;
use life_words::{empty_word, look_word};
use xp_board::Port;
use xp_preempt::Preempt;
use xp_words::{Pause, Stop};

// How many words of a vCPU may name a frame.
const NAMES: u32 = 34;

/// Empties the words of each vCPU of the domain from `at` on, which then is the first whose words may name a frame. The gate is asked behind each.
pub(crate) fn empty_vcpus<P: Port>(
    port: &mut P,
    gate: &mut dyn Preempt,
    domain: u16,
    at: &mut u32,
) -> Result<(), Stop>
    requires rests { Rests (P.value port.old) }
    requires clear { NamesNone (P.value port.old) }
    requires come { FoundEmpty (P.value port.old).post.machine (P.value port.old).post.vcpu domain at.old (P.value port.old).holdings }
    ensures come { FoundEmpty (P.value port.new).post.machine (P.value port.new).post.vcpu domain at.new (P.value port.new).holdings }
    ensures all { IfOk result (λ _. length (P.value port.new).post.machine.vcpu_domain ≤ at.new) }
    ensures went { Gated (policy gate.old) (policy gate.new) (is_due_answer result) (λ answers. PhaseWent (P.value port.old) (P.value port.new) domain (Empties at.old) (Empties at.new) [] answers result) }
{
    while *at < port.layout().vcpus() {
        let passed = empty_one(port, gate, domain, *at)?;
        *at += 1;
        if passed {
            if gate.due() {
                return Err(Stop::Paused(Pause::Due));
            }
        }
    }
    Ok(())
}

// One vCPU, if it is the domain's: whether it is.
fn empty_one<P: Port>(
    port: &mut P,
    gate: &mut dyn Preempt,
    domain: u16,
    vcpu: u32,
) -> Result<bool, Stop>
    requires vcpu { vcpu < length (P.value port.old).post.machine.vcpu_domain }
    requires rests { Rests (P.value port.old) }
    requires clear { NamesNone (P.value port.old) }
    requires come { FoundEmpty (P.value port.old).post.machine (P.value port.old).post.vcpu domain vcpu (P.value port.old).holdings }
    ensures stays { FoundEmpty (P.value port.new).post.machine (P.value port.new).post.vcpu domain vcpu (P.value port.new).holdings }
    ensures come { IfOk result (λ _. FoundEmpty (P.value port.new).post.machine (P.value port.new).post.vcpu domain (vcpu + 1) (P.value port.new).holdings) }
    ensures went { Gated (policy gate.old) (policy gate.new) (is_due_answer result) (λ answers. PartWent (P.value port.old) (P.value port.new) domain (EmptiesOne domain vcpu (P.value port.old) (P.value port.new) answers result) result) }
    // Behind it the gate may pause the destruction.
    ensures passed { IfOk result (λ passed. passed ≡ true → HasPassed (P.value port.old).post.machine (of_domain (P.value port.old).post.machine domain true) (Met (P.value port.old) (P.value port.new))) }
{
    if !is_of(port, vcpu, domain) {
        return Ok(false);
    }
    empty_words(port, gate, domain, vcpu)?;
    Ok(true)
}

// All words of one vCPU of the domain.
fn empty_words<P: Port>(
    port: &mut P,
    gate: &mut dyn Preempt,
    domain: u16,
    vcpu: u32,
) -> Result<(), Stop>
    requires vcpu { vcpu < length (P.value port.old).post.machine.vcpu_domain }
    requires of { domain_of (P.value port.old).post.machine vcpu ≡ domain }
    requires rests { Rests (P.value port.old) }
    requires clear { NamesNone (P.value port.old) }
    requires come { FoundEmpty (P.value port.old).post.machine (P.value port.old).post.vcpu domain vcpu (P.value port.old).holdings }
    ensures empty { IfOk result (λ _. (k : ℕ) → k < 38 → IsTrue (is_context k) → LeftAs (Met (P.value port.old) (P.value port.new)) (Vcpu vcpu k) (λ w. w == 0)) }
    ensures went { Gated (policy gate.old) (policy gate.new) (is_due_answer result) (λ answers. PartWent (P.value port.old) (P.value port.new) domain (EmptiesTo vcpu (P.value port.old) (P.value port.new) answers result) result) }
{
    for i in 0..NAMES {
        empty(port, gate, domain, vcpu, word_at(i))?;
    }
    Ok(())
}

// One word.
fn empty<P: Port>(
    port: &mut P,
    gate: &mut dyn Preempt,
    domain: u16,
    vcpu: u32,
    word: u32,
) -> Result<(), Stop>
    requires vcpu { vcpu < length (P.value port.old).post.machine.vcpu_domain }
    requires of { domain_of (P.value port.old).post.machine vcpu ≡ domain }
    requires word { word < 38 }
    requires context { IsTrue (is_context word) }
    requires rests { Rests (P.value port.old) }
    requires clear { NamesNone (P.value port.old) }
    requires empties { MayEmptyWord (P.value port.old) vcpu }
    ensures empty { IfOk result (λ _. LeftAs (Met (P.value port.old) (P.value port.new)) (Vcpu vcpu word) (λ w. w == 0)) }
    ensures went { Gated (policy gate.old) (policy gate.new) (is_due_answer result) (λ answers. PartWent (P.value port.old) (P.value port.new) domain (EmptiesWord vcpu word (P.value port.old) (P.value port.new) answers result) result) }
{
    if look_word(port, vcpu, word) == 0 {
        return Ok(());
    }
    let old = empty_word(port, vcpu, word);
    if old == 0 {
        return Ok(());
    }
    let_go(port, gate, (old - 1) as u32)
}

// The old ones, the bases, and the pages of the GDT and of the LDT, in this order.
fn word_at(i: u32) -> u32
    requires { i < 34 }
    ensures { result ≡ word_at i }
{
    match i {
        0 | 1 => i + 2,
        2 | 3 => i - 2,
        _ => i + 4,
    }
}
