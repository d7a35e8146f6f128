//! Where a machine has one vCPU, nothing of others is in the way.
ghost use Rattle.std.specs.Prelude.{◌≡◌, ◌≢◌, ℕ, Some, None, length};
ghost use Rattle.xp_words.specs.declared.reply.Pause.TheVariants.{Busy, Flush, Alive};
ghost use Rattle.xp_words.specs.declared.reply.Stop.TheVariants.{Paused};
ghost use Rattle.xp_board.specs.Readings.{domain_of};
ghost use Rattle.xp_board.specs.Told.{PortValue};
ghost use Rattle.step_maker.specs.Answers.{Stops};
ghost use Rattle.step_maker.specs.Asked.{Request};

/// No frame is busy: what is in work, locked or closing is in the own hand.
#[tactic(auto, using(crate::proofs::OneVcpu::never_busy))]
pub fn nothing_is_busy()
    ensures { (v w : PortValue) (r : Request) (f x : ℕ) → length v.post.machine.vcpu_domain ≡ 1 → r.destroys ≡ None → Stops v w r (Paused (Busy f x)) → ⊥ }
{}

/// No vCPU is waited for.
#[tactic(auto, using(crate::proofs::OneVcpu::never_waits))]
pub fn nobody_is_waited_for()
    ensures { (v w : PortValue) (r : Request) (u stamp x : ℕ) → length v.post.machine.vcpu_domain ≡ 1 → Stops v w r (Paused (Flush u stamp x)) → ⊥ }
{}

/// No vCPU of a domain under destruction runs, but in a destruction of the own domain, which numbers refuse.
#[tactic(auto, using(crate::proofs::OneVcpu::never_alive))]
pub fn nobody_is_alive()
    ensures { (v w : PortValue) (r : Request) (u x : ℕ) → length v.post.machine.vcpu_domain ≡ 1 → r.destroys ≢ Some (domain_of v.post.machine v.post.vcpu) → Stops v w r (Paused (Alive u x)) → ⊥ }
{}
