//! Answers of calls of every kind, also of those that no operation makes yet: what licenses them, and what does not. That an answer may be given
//! does not say that it is: that is for the contract of the call.
ghost use Rattle.std.specs.Prelude.{ℕ, ◌≡◌, ◌<◌, ◌/◌, ◌==◌, Bool, true, false, not, length, Some, None, IsTrue};
ghost use Rattle.xp_words.specs.RefWords.{ref_read};
ghost use Rattle.xp_words.specs.declared.kind.PageType.{PageType};
ghost use Rattle.xp_words.specs.declared.kind.PageType.TheVariants as kinds;
ghost use Rattle.xp_words.specs.declared.place.Place.TheVariants.{Kind, Priv, Refs, Vcpu};
ghost use Rattle.xp_words.specs.declared.reply.Pause.TheVariants.{Due};
ghost use Rattle.xp_words.specs.declared.reply.Refusal.TheVariants.{NoFree, NoPrivilege, NotMapped, OtherType, ReadOnly, WrongOwner};
ghost use Rattle.xp_words.specs.declared.reply.Stop.TheVariants.{Refused, Paused};
ghost use Rattle.xp_board.specs.Readings.{domain_of, has_now, is_context, is_live_as, owner_of};
ghost use Rattle.xp_board.specs.Told.{PortValue};
ghost use Rattle.step_maker.specs.Moves.{Met};
ghost use Rattle.step_maker.specs.Answers.{Stops};
ghost use Rattle.step_maker.specs.Asked.{Asked, IsAsked, Request, of_block, of_destroy, of_grant, of_return};
ghost use Rattle.step_maker.specs.Finding.{FoundAt};
ghost use Rattle.step_maker.specs.Licences.{HasTakenAll, is_allocated};
ghost use Rattle.step_maker.specs.Pauses.{LeftAs};
ghost use Rattle.step_maker.specs.Reasons.{AwaitsStamp, FoundFreeBy, Whose};
ghost use Rattle.answer_laws.specs.Walked.{SeenBelow};

/// A call that takes a block of frames waits past no clock value but the greatest that it found in that block, all of which it found free: not
/// past that of another block, nor past that of one frame where another has a later one.
pub fn a_claim_awaits_its_own_block()
    ensures { (v w : PortValue) (owner size block : ℕ) (whose : Whose) (stamp : ℕ) → AwaitsStamp v.post.machine v.post.vcpu (of_block owner size block) (Met v w) whose stamp →
        (g : ℕ) → g / size ≡ block → g < v.post.machine.frames → FoundFreeBy (Met v w) g stamp }
{}

/// That there is no free block is found in one pass: of each of them a frame was found taken, the lower block the earlier.
#[tactic(auto, using(crate::proofs::Licensing::one_pass))]
pub fn no_free_block_in_one_pass_upwards()
    ensures { (v w : PortValue) (owner size block : ℕ) → Stops v w (of_block owner size block) (Refused NoFree) → HasTakenAll v.post.machine size (Met v w) }
{}

/// A frame that was found not allocated may be refused where it is to be given back, also to its owner.
#[tactic(auto, using(crate::proofs::Licensing::not_returned))]
pub fn a_frame_that_is_not_allocated_may_be_refused()
    ensures { (v w : PortValue) (f owner x : ℕ) → FoundAt (Met v w) (Refs f) x → is_allocated (ref_read x) ≡ false → Stops v w (of_return f owner) (Refused (WrongOwner f x)) }
{}

/// Each frame that a destruction found to be the domain's is asked, so it may take its marks off and give it back.
pub fn a_frame_of_a_destroyed_domain_is_asked()
    ensures { (v w : PortValue) (d f x : ℕ) (rose : Bool) → FoundAt (Met v w) (Refs f) x → owner_of x ≡ Some d → IsAsked v.post.machine v.post.vcpu (of_destroy d rose) (Met v w) f }
{}

/// A destruction may pause for its gate, where that said yes, behind a vCPU of the domain whose words name no frame any more.
#[tactic(auto, using(crate::proofs::Licensing::due_behind))]
pub fn a_destruction_may_pause_behind_an_empty_vcpu()
    ensures { (v w : PortValue) (d u : ℕ) → u < length v.post.machine.vcpu_domain → domain_of v.post.machine u ≡ d → ((k : ℕ) → k < 38 → IsTrue (is_context k) → LeftAs (Met v w) (Vcpu u k) (λ x. x == 0)) →
        Stops v w (of_destroy d true) (Paused Due) }
{}

/// A destruction of the own domain may be refused for want of privilege, without a look.
#[tactic(auto, using(crate::proofs::Licensing::not_itself))]
pub fn a_destruction_of_the_own_domain_may_be_refused()
    ensures { (v w : PortValue) (own : ℕ) (rose : Bool) → own ≡ domain_of v.post.machine v.post.vcpu → Stops v w (of_destroy own rose) (Refused (NoPrivilege own own)) }
{}

/// A grant of privilege over a domain may be refused where the caller was found without that privilege; over the own domain, too.
pub fn a_grant_without_the_privilege_may_be_refused()
    ensures { (v w : PortValue) (own to over x : ℕ) → own ≡ domain_of v.post.machine v.post.vcpu → FoundAt (Met v w) (Priv own) x → has_now over x ≡ false → Stops v w (of_grant to over) (Refused (NoPrivilege own over)) }
{}

/// A call that names no entry is refused for a frame's type only where it asked that type of the frame, however it came by the frame.
#[tactic(auto, using(crate::proofs::Licensing::asked_type))]
pub fn only_an_entry_update_walks_to_another_type()
    ensures { (v w : PortValue) (r : Request) (f x : ℕ) (want : PageType) → r.index ≡ None → Stops v w r (Refused (OtherType f want x)) → (owner : ℕ) × Asked v.post.machine v.post.vcpu r (Met v w) f owner (Some want) }
{}

/// A table of level 3 in which an entry was found not mapped is one that an entry of level 4 names, in a table that a base of the vCPU names.
#[tactic(auto, using(crate::proofs::Licensing::walked_to))]
pub fn a_level_is_walked_to_from_above()
    ensures { (v w : PortValue) (r : Request) (e : ℕ) → Stops v w r (Refused (NotMapped 3 e)) → SeenBelow v.post.machine v.post.vcpu (Met v w) e }
{}

/// A write for a guest that is to be done as an update of its own table is read-only only where the frame was found no live table of level 1.
#[tactic(auto, using(crate::proofs::Licensing::no_table))]
pub fn a_write_for_the_guest_finds_no_table()
    ensures { (v w : PortValue) (r : Request) (e : ℕ) → r.stores ≡ false → Stops v w r (Refused (ReadOnly e)) → (f x : ℕ) × IsTrue (r.names f) × FoundAt (Met v w) (Kind f) x × IsTrue (not (is_live_as kinds.L1 x)) }
{}
