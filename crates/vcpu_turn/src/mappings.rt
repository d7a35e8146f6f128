//! Updates by address: an entry, and then the translations that are dropped.
ghost use Rattle.std.specs.Prelude.{◌≡◌, ◌≤◌, false};
ghost use Rattle.xp_board.specs.Readings.{domain_of};
ghost use Rattle.step_maker.specs.Holds.{Rests};
ghost use Rattle.mmuext_ops.specs.Elements.{KnowsAwaited};
ghost use Rattle.vcpu_turn.specs.Cpus.{awaited_behind};
ghost use Rattle.vcpu_turn.specs.Lists.{is_due_answer};
ghost use Rattle.vcpu_turn.specs.Mappings.{AwaitsBehind, AwaitsWhere, DropsBehind, DropsOwn, IsUnpaused, MapsWord, UpdatesWord, done_behind, is_bad_flags, own_drop, waits_for_all};
ghost use Rattle.vcpu_turn.specs.Settling.{IsWarm, SettlesFirst};
ghost use Rattle.xp_preempt.specs.Gates.{GatedPast};

use foreign_map::owner_for;
use level_release::settle;
use mmu_update::update_at;
use mmuext_ops::{flush_local, flush_vcpus, invalidate};
use xp_board::Port;
use xp_preempt::Preempt;
use xp_words::{Pause, Refusal, Stop};

// A bit for each vCPU that a machine may have.
const EVERY_VCPU: u16 = 0xffff;

// A number of a domain has 16 bits.
const DOMAINS: u64 = 0x10000;

// `UVMF_TLB_FLUSH`, `UVMF_INVLPG` and `UVMF_FLUSHTYPE_MASK` plus one of `xen.h`: the low two bits say which own translations are dropped.
const FLUSHES: u64 = 1;

const INVALIDATES: u64 = 2;

const DROPS: u64 = 4;

// `UVMF_ALL`, bit 2: the vCPUs of the domain are waited for, too.
const FOR_ALL: u64 = 4;

const HIGHEST: u64 = 7;

/// An update by address: the number that names whose frame is mapped, the address, the word of its entry, and flags.
#[derive(Clone, Copy, Drop)]
pub(crate) struct Mapping {
    pub foreign: u64,
    pub va: u64,
    pub word: u64,
    pub flags: u64,
}

impl Mapping {
    fn is_bad(&self) -> bool
        ensures { result ≡ is_bad_flags self.now.flags }
    {
        self.flags > HIGHEST || self.flags % DROPS == 3
    }

    fn waits(&self) -> bool
        ensures { result ≡ waits_for_all self.now.flags }
    {
        self.flags >= FOR_ALL && self.flags % DROPS != 0
    }
}

// An update by address was paused with so many elements done: the clock value past which its wait goes on.
pub(crate) fn awaited_behind(done: u32, pause: Pause) -> Option<u64>
    ensures { result ≡ awaited_behind done pause }
{
    match pause {
        Pause::Flush { stamp, .. } if done > 0 => Some(stamp),
        _ => None,
    }
}

// The entry, in the own tables, behind what is settled first. Whose frame it maps is read in each turn until it is set.
fn update_entry<P: Port>(
    port: &mut P,
    gate: &mut dyn Preempt,
    domain: u16,
    mapping: &Mapping,
) -> Result<(), Stop>
    requires own { domain ≡ domain_of (P.value port.old).post.machine (P.value port.old).post.vcpu }
    requires rests { Rests (P.value port.old) }
    requires warm { IsWarm (P.value port.old) }
    ensures post { (P.value port.new).post ≡ (P.value port.old).post }
    ensures updates { GatedPast (policy gate.old) (policy gate.new) (is_due_answer result) (λ answers. SettlesFirst (UpdatesWord domain mapping.now.foreign mapping.now.va mapping.now.word mapping.now.flags) (P.value port.old) (P.value port.new) answers result) }
    ensures rests { Rests (P.value port.new) }
    ensures warm { IsWarm (P.value port.new) }
{
    settle(port, gate, &mut None)?;
    if mapping.foreign >= DOMAINS {
        return Err(Stop::Refused(Refusal::BadRange));
    }
    let owners = match owner_for(port, domain, mapping.foreign) {
        Ok(owners) => owners,
        Err(refusal) => return Err(Stop::Refused(refusal)),
    };
    if mapping.is_bad() {
        return Err(Stop::Refused(Refusal::BadRange));
    }
    update_at(port, gate, owners, mapping.va, mapping.word)
}

// The own translations that the flags name.
fn drop_own<P: Port>(port: &mut P, domain: u16, mapping: &Mapping) -> Result<(), Stop>
    requires own { domain ≡ domain_of (P.value port.old).post.machine (P.value port.old).post.vcpu }
    requires rests { Rests (P.value port.old) }
    requires warm { IsWarm (P.value port.old) }
    ensures post { (P.value port.new).post ≡ (P.value port.old).post }
    ensures drops { DropsOwn domain (own_drop mapping.now.flags mapping.now.va) (P.value port.old) (P.value port.new) result }
    ensures unpaused { IsUnpaused result }
    ensures rests { Rests (P.value port.new) }
    ensures warm { IsWarm (P.value port.new) }
{
    match mapping.flags % DROPS {
        FLUSHES => flush_local(port),
        INVALIDATES => {
            invalidate(port, mapping.va);
            Ok(())
        }
        _ => Ok(()),
    }
}

// Behind the entry: own translations are dropped, and the vCPUs of the domain waited for.
fn drop_behind<P: Port>(port: &mut P, domain: u16, mapping: &Mapping) -> Result<(), Stop>
    requires own { domain ≡ domain_of (P.value port.old).post.machine (P.value port.old).post.vcpu }
    requires rests { Rests (P.value port.old) }
    requires warm { IsWarm (P.value port.old) }
    ensures post { (P.value port.new).post ≡ (P.value port.old).post }
    ensures drops { DropsBehind domain mapping.now.flags mapping.now.va (P.value port.old) (P.value port.new) result }
    ensures awaits { AwaitsBehind (P.value port.new) result }
    ensures undue { is_due_answer result ≡ false }
    ensures rests { Rests (P.value port.new) }
    ensures warm { IsWarm (P.value port.new) }
{
    drop_own(port, domain, mapping)?;
    if mapping.waits() {
        flush_vcpus(port, EVERY_VCPU, None)
    } else {
        Ok(())
    }
}

// What is done behind the entry ended so: the entry stays done, but of an operation that is refused.
fn done_behind(answer: &Result<(), Stop>) -> u32
    ensures { result ≡ done_behind answer.now }
{
    match answer {
        Ok(()) | Err(Stop::Paused(_)) => 1,
        Err(Stop::Refused(_)) => 0,
    }
}

// An update by address goes on: from its beginning, or with the wait for the vCPUs of the domain.
pub(crate) fn map_word<P: Port>(
    port: &mut P,
    gate: &mut dyn Preempt,
    domain: u16,
    mapping: &Mapping,
    done: &mut u32,
    awaited: Option<u64>,
) -> Result<(), Stop>
    requires within { done.old ≤ 1 }
    requires own { domain ≡ domain_of (P.value port.old).post.machine (P.value port.old).post.vcpu }
    requires awaits { KnowsAwaited (P.value port.old) awaited }
    requires rests { Rests (P.value port.old) }
    requires warm { IsWarm (P.value port.old) }
    ensures post { (P.value port.new).post ≡ (P.value port.old).post }
    ensures within { done.new ≤ 1 }
    ensures works { GatedPast (policy gate.old) (policy gate.new) (is_due_answer result) (λ answers. MapsWord domain mapping.now.foreign mapping.now.va mapping.now.word mapping.now.flags awaited (P.value port.old) done.old done.new (P.value port.new) answers result) }
    ensures awaits { AwaitsWhere (P.value port.new) done.new result }
    ensures rests { Rests (P.value port.new) }
    ensures warm { IsWarm (P.value port.new) }
{
    if *done == 0 {
        update_entry(port, gate, domain, mapping)?;
        let answer = drop_behind(port, domain, mapping);
        *done = done_behind(&answer);
        return answer;
    }
    let answer = flush_vcpus(port, EVERY_VCPU, awaited);
    *done = done_behind(&answer);
    answer
}
