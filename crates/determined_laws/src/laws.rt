ghost use Rattle.std.specs.Prelude.{◌≡◌, ◌<◌, ◌+◌, ℕ, not, Bool, List, Result, length};
ghost use Rattle.xp_words.specs.Machine.{Machine};
ghost use Rattle.xp_words.specs.declared.kind.PageType.{PageType};
ghost use Rattle.xp_words.specs.declared.reply.Refusal.{Refusal};
ghost use Rattle.xp_words.specs.declared.reply.Stop.{Stop};
ghost use Rattle.xp_board.specs.Told.{PortValue, Post};
ghost use Rattle.step_maker.specs.Reasons.{Whose};
ghost use Rattle.step_maker.specs.Visits.{Visit};
ghost use Rattle.entry_locks.specs.Found.{LocksBy};
ghost use Rattle.entry_locks.specs.declared.locking.Locked.{Locked};
ghost use Rattle.flush_waits.specs.Listing.{WaitedFor};
ghost use Rattle.flush_words.specs.Flushing.{FlushedBy};
ghost use Rattle.foreign_map.specs.Owning.{OwnersBy};
ghost use Rattle.foreign_map.specs.declared.owners.Owners.{Owners};
ghost use Rattle.frame_types.specs.Found.{DropsBy, TypeBy};
ghost use Rattle.frame_types.specs.declared.taking.Taken.{Taken};
ghost use Rattle.frame_words.specs.Freeing.{PutBy};
ghost use Rattle.frame_words.specs.Refs.{GetsBy};
ghost use Rattle.m2p_map.specs.Found.{MapsBy};
ghost use Rattle.tlb_walks.specs.Accesses.{GuestReads, GuestWrites};
ghost use Rattle.tlb_walks.specs.Walks.{WalkBy};
ghost use Rattle.tlb_walks.specs.declared.walks.Walked.{Walked};
ghost use Rattle.determined_laws.specs.Courses.{Alike};
ghost use Rattle.determined_laws.specs.Forks.{Agree, AgreeLock, Tie};

/// The owners that an operation names, and whether the caller may do so (foreign_map `owners_for`).
#[tactic(auto, using(crate::proofs::Owners::owners_tie))]
pub fn owners_are_determined()
    ensures { (n : Machine) (caller foreign : ℕ) (a b : Result Owners Refusal) (us vs : List Visit) → OwnersBy n caller foreign a us → OwnersBy n caller foreign b vs → Tie us vs (a ≡ b) }
{}

/// The own flush (flush_words).
#[tactic(auto, using(crate::proofs::Waits::flushed_tie))]
pub fn a_flush_is_determined()
    ensures { (vcpu : ℕ) (a b : Result (Unit {0}) Refusal) (us vs : List Visit) → FlushedBy vcpu a us → FlushedBy vcpu b vs → Tie us vs (a ≡ b) }
{}

/// The wait for the flushes of all vCPUs that may have a translation (flush_waits).
#[tactic(auto, using(crate::proofs::Waited::waited_tie))]
pub fn a_wait_is_determined()
    ensures { (q : Post) (whose : Whose) (stamp : ℕ) (a b : Result (Unit {0}) Stop) (us vs : List Visit) → q.vcpu < length q.machine.vcpu_domain → WaitedFor q whose stamp a us → WaitedFor q whose stamp b vs → Tie us vs (a ≡ b) }
{}

/// A page walk of the guest (tlb_walks `walk`, and so `guest_read` and `guest_write` up to their own load or store).
pub fn a_walk_is_determined()
    ensures { (n : Machine) (vcpu : ℕ) (user : Bool) (va : ℕ) (write : Bool) (a b : Result Walked Stop) (us vs : List Visit) → WalkBy n vcpu user va write a us → WalkBy n vcpu user va write b vs → Tie us vs (a ≡ b) }
{}

/// A reference that is taken (frame_words `get_ref`).
#[tactic(auto, using(crate::proofs::References::gets_tie))]
pub fn a_reference_is_determined()
    ensures { (n : Machine) (frame owner : ℕ) (a b : Result ℕ Stop) (us vs : List Visit) → GetsBy n frame owner a us → GetsBy n frame owner b vs → Tie us vs (Agree a b) }
{}

/// A reference that is given back, and with the last one the frame (frame_words `put_ref`).
pub fn a_reference_given_back_is_determined()
    ensures { (frame : ℕ) (us vs : List Visit) → PutBy frame us → PutBy frame vs → Tie us vs (Unit {0}) }
{}

/// A machine-to-physical word that is set (m2p_map `set_m2p`).
#[tactic(auto, using(crate::proofs::References::maps_tie))]
pub fn a_m2p_update_is_determined()
    ensures { (n : Machine) (frame owner word : ℕ) (a b : Result (Unit {0}) Stop) (us vs : List Visit) → MapsBy n frame owner word a us → MapsBy n frame owner word b vs → Tie us vs (Agree a b) }
{}

/// The lock of a live table (entry_locks `lock_entry`).
#[tactic(auto, using(crate::proofs::References::locks_tie))]
pub fn a_lock_is_determined()
    ensures { (n : Machine) (frame : ℕ) (a b : Result Locked Stop) (us vs : List Visit) → LocksBy n frame a us → LocksBy n frame b vs → Tie us vs (AgreeLock a b) }
{}

/// A type count that is given back, and the reference with it (frame_types `drop_plain`).
pub fn a_type_given_back_is_determined()
    ensures { (frame : ℕ) (kind : PageType) (us vs : List Visit) → DropsBy frame kind us → DropsBy frame kind vs → Tie us vs (Unit {0}) }
{}

/// A type that is taken, with the wait that it may need (frame_types `take_type`).
pub fn a_type_is_determined()
    ensures { (q : Post) (frame owner : ℕ) (want : PageType) (a b : Result Taken Stop) (us vs : List Visit) → q.vcpu < length q.machine.vcpu_domain → TypeBy q frame owner want a us → TypeBy q frame owner want b vs → Tie us vs (a ≡ b) }
{}

/// A guest's load: by the own translations, and by the words that it finds (tlb_walks `guest_read`).
pub fn a_guests_load_is_determined()
    ensures { (v w x : PortValue) (user : Bool) (va : ℕ) (a b : Result ℕ Stop) → GuestReads v w user va a → GuestReads v x user va b → Alike v w x (a ≡ b) }
{}

/// A guest's store, in the same way (tlb_walks `guest_write`).
pub fn a_guests_store_is_determined()
    ensures { (v w x : PortValue) (user : Bool) (va val : ℕ) (a b : Result (Unit {0}) Stop) → GuestWrites v w user va val a → GuestWrites v x user va val b → Alike v w x (a ≡ b) }
{}
