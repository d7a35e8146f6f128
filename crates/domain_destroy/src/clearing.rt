//! The frames of a domain that is destroyed, each without its marks.
ghost use Rattle.std.specs.Prelude.{ℕ, ◌≡◌, ◌+◌, ◌<◌, ◌≤◌, [], true, false, IfOk};
ghost use Rattle.step_maker.specs.Holds.{Rests};
ghost use Rattle.step_maker.specs.Moves.{Met};
ghost use Rattle.step_maker.specs.Pauses.{HasPassed};
ghost use Rattle.level_release.specs.Asking.{is_due_answer};
ghost use Rattle.domain_destroy.specs.Asking.{of_domain};
ghost use Rattle.domain_destroy.specs.Clearing.{ClearsFrame};
ghost use Rattle.domain_destroy.specs.Coming.{FoundCleared};
ghost use Rattle.domain_destroy.specs.Destroying.{PartWent, PhaseWent};
ghost use Rattle.domain_destroy.specs.Emptying.{NamesNone};
ghost use Rattle.domain_destroy.specs.declared.place.DestroyAt.TheVariants.{Clears};
ghost use Rattle.xp_preempt.specs.Gates.{Gated};

use crate::marks::{give_mark, owner_in, take_marks};
use frame_words::look_refs;
use kind_words::look_kind;
use xp_board::Port;
use xp_preempt::Preempt;
use xp_words::{Pause, Stop};

/// Takes the marks off each frame of the domain from `at` on, which then is the first that may have one. The gate is asked behind each.
pub(crate) fn clear_frames<P: Port>(
    port: &mut P,
    gate: &mut dyn Preempt,
    domain: u16,
    at: &mut u32,
) -> Result<(), Stop>
    requires rests { Rests (P.value port.old) }
    requires clear { NamesNone (P.value port.old) }
    requires come { (since : ℕ) × FoundCleared (P.value port.old).post.machine (P.value port.old).post.vcpu domain at.old since (P.value port.old).holdings }
    ensures come { (since : ℕ) → FoundCleared (P.value port.old).post.machine (P.value port.old).post.vcpu domain at.old since (P.value port.old).holdings → FoundCleared (P.value port.new).post.machine (P.value port.new).post.vcpu domain at.new since (P.value port.new).holdings }
    ensures all { IfOk result (λ _. (P.value port.new).post.machine.frames ≤ at.new) }
    ensures went { Gated (policy gate.old) (policy gate.new) (is_due_answer result) (λ answers. PhaseWent (P.value port.old) (P.value port.new) domain (Clears at.old) (Clears at.new) [] answers result) }
{
    while *at < port.layout().frames {
        let passed = clear_frame(port, gate, domain, *at)?;
        *at += 1;
        if passed {
            if gate.due() {
                return Err(Stop::Paused(Pause::Due));
            }
        }
    }
    Ok(())
}

// One frame, if it is the domain's: whether it was. Its kind word is looked at first, as no frame comes to a domain whose vCPUs are stopped: a mark of that
// word is then one of the domain's.
fn clear_frame<P: Port>(
    port: &mut P,
    gate: &mut dyn Preempt,
    domain: u16,
    frame: u32,
) -> Result<bool, Stop>
    requires frame { frame < (P.value port.old).post.machine.frames }
    requires rests { Rests (P.value port.old) }
    requires clear { NamesNone (P.value port.old) }
    requires come { (since : ℕ) × FoundCleared (P.value port.old).post.machine (P.value port.old).post.vcpu domain frame since (P.value port.old).holdings }
    ensures stays { (since : ℕ) → FoundCleared (P.value port.old).post.machine (P.value port.old).post.vcpu domain frame since (P.value port.old).holdings → FoundCleared (P.value port.new).post.machine (P.value port.new).post.vcpu domain frame since (P.value port.new).holdings }
    ensures come { IfOk result (λ _. (since : ℕ) → FoundCleared (P.value port.old).post.machine (P.value port.old).post.vcpu domain frame since (P.value port.old).holdings → FoundCleared (P.value port.new).post.machine (P.value port.new).post.vcpu domain (frame + 1) since (P.value port.new).holdings) }
    ensures went { Gated (policy gate.old) (policy gate.new) (is_due_answer result) (λ answers. PartWent (P.value port.old) (P.value port.new) domain (ClearsFrame domain frame (P.value port.old) (P.value port.new) answers result) result) }
    // Behind it the gate may pause the destruction.
    ensures passed { IfOk result (λ passed. passed ≡ true → HasPassed (P.value port.old).post.machine (of_domain (P.value port.old).post.machine domain true) (Met (P.value port.old) (P.value port.new))) }
{
    let found = look_kind(port, frame);
    if owner_in(look_refs(port, frame)) != Some(domain) {
        return Ok(false);
    }
    take_marks(port, gate, frame, found)?;
    give_mark(port, domain, frame)
}
