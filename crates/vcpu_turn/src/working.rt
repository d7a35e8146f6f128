//! The work of a turn on a list of any length.
ghost use Rattle.std.specs.Prelude.{◌≡◌, ◌≤◌, length};
ghost use Rattle.xp_board.specs.Readings.{domain_of};
ghost use Rattle.step_maker.specs.Holds.{Rests};
ghost use Rattle.vcpu_turn.specs.Lists.{is_due_answer, WorksThrough};
ghost use Rattle.vcpu_turn.specs.Pairs.{WorksOwned};
ghost use Rattle.vcpu_turn.specs.Settling.{IsWarm};
ghost use Rattle.vcpu_turn.specs.Working.{valued};
ghost use Rattle.xp_preempt.specs.Gates.{GatedPast};

use crate::lists::{Items, go_on};
use crate::pairs::OwnedPairs;
use foreign_map::owner_for;
use xp_board::Port;
use xp_preempt::Preempt;
use xp_words::{Pair, Refusal, Stop};

// The most elements that a list may have.
const LONGEST: usize = 512;

// A list of any length, from its item `done` on.
pub(crate) fn go_through<P: Port, L: Items>(
    port: &mut P,
    gate: &mut dyn Preempt,
    items: &L,
    done: &mut u32,
) -> Result<(), Stop>
    requires within { done.old ≤ L.count items.now }
    requires suits { L.suits items.now (P.value port.old) }
    requires rests { Rests (P.value port.old) }
    ensures suits { L.suits items.now (P.value port.new) }
    ensures post { (P.value port.new).post ≡ (P.value port.old).post }
    ensures within { done.new ≤ L.count items.now }
    ensures works { GatedPast (policy gate.old) (policy gate.new) (is_due_answer result) (λ answers. WorksThrough (L.fits items.now) (L.count items.now) (P.value port.old) done.old done.new (P.value port.new) answers result) }
    ensures rests { Rests (P.value port.new) }
{
    if items.len() > LONGEST {
        *done = 0;
        return Err(Stop::Refused(Refusal::BatchLong));
    }
    let mut at = *done as usize;
    let answer = go_on(port, gate, items, &mut at);
    *done = at as u32;
    answer
}

// Pairs, from number `done` on. Whose tables and frames they are about is read in each turn.
pub(crate) fn go_through_pairs<P: Port>(
    port: &mut P,
    gate: &mut dyn Preempt,
    domain: u16,
    foreign: u64,
    pairs: &[Pair],
    done: &mut u32,
) -> Result<(), Stop>
    requires within { done.old ≤ length pairs.now }
    requires own { domain ≡ domain_of (P.value port.old).post.machine (P.value port.old).post.vcpu }
    requires rests { Rests (P.value port.old) }
    requires warm { IsWarm (P.value port.old) }
    ensures warm { IsWarm (P.value port.new) }
    ensures post { (P.value port.new).post ≡ (P.value port.old).post }
    ensures within { done.new ≤ length pairs.now }
    ensures works { GatedPast (policy gate.old) (policy gate.new) (is_due_answer result) (λ answers. WorksOwned domain foreign pairs.now (P.value port.old) done.old done.new (P.value port.new) answers result) }
    ensures rests { Rests (P.value port.new) }
{
    if pairs.len() > LONGEST {
        *done = 0;
        return Err(Stop::Refused(Refusal::BatchLong));
    }
    if pairs.is_empty() {
        return Ok(());
    }
    let owners = match owner_for(port, domain, foreign) {
        Ok(owners) => owners,
        Err(refusal) => return Err(Stop::Refused(refusal)),
    };
    let mut at = *done as usize;
    let answer = go_on(port, gate, &OwnedPairs { pairs, owners }, &mut at);
    *done = at as u32;
    answer
}

// 0 is the value of what answers none.
pub(crate) fn valued(answer: Result<(), Stop>) -> Result<u64, Stop>
    ensures { result ≡ valued answer }
{
    match answer {
        Ok(()) => Ok(0),
        Err(stop) => Err(stop),
    }
}
