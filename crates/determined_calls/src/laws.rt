ghost use Rattle.std.specs.Prelude.{◌≡◌, ℕ, Bool, List, Option, Result};
ghost use Rattle.xp_words.specs.declared.reply.Stop.{Stop};
ghost use Rattle.xp_board.specs.Told.{PortValue};
ghost use Rattle.xp_preempt.specs.Gates.{GivesAnswers};
ghost use Rattle.foreign_map.specs.declared.owners.Owners.{Owners};
ghost use Rattle.entry_exchange.specs.Course.{Exchanged};
ghost use Rattle.entry_exchange.specs.declared.exchanging.EntryUpdate.{EntryUpdate};
ghost use Rattle.mmu_update.specs.Addresses.{Leads, UpdatedAt};
ghost use Rattle.mmu_update.specs.Course.{Updated};
ghost use Rattle.mmu_update.specs.declared.element.Element as updates;
ghost use Rattle.mmuext_ops.specs.Course.{Performed, PinEnds, Pinned, Unpinned};
ghost use Rattle.mmuext_ops.specs.declared.element.Element as elements;
ghost use Rattle.determined_laws.specs.Courses.{Alike};

/// An entry of a table under the own lock, exchanged (entry_exchange `exchange_entry`).
pub fn an_exchange_is_determined()
    ensures { (v w y : PortValue) (x : EntryUpdate) (o : Owners) (answers others : List Bool) (a b : Result (Unit {0}) Stop) (says : ℕ → Bool) (n : ℕ) → GivesAnswers says n answers → GivesAnswers says n others → Exchanged v x o w answers a → Exchanged v x o y others b → Alike v w y ((answers ≡ others) × (a ≡ b)) }
{}

/// One element of `mmu_update` (mmu_update `update`).
pub fn an_update_is_determined()
    ensures { (v w x : PortValue) (o : Owners) (e : updates.Element) (answers others : List Bool) (a b : Result (Unit {0}) Stop) (says : ℕ → Bool) (n : ℕ) → GivesAnswers says n answers → GivesAnswers says n others → Updated v o e w answers a → Updated v o e x others b → Alike v w x ((answers ≡ others) × (a ≡ b)) }
{}

/// The table of level 1 to which an address leads, by loads alone (mmu_update `table_at`).
pub fn a_way_down_is_determined()
    ensures { (v w x : PortValue) (va : ℕ) (a b : Result ℕ Stop) → Leads v va w a → Leads v va x b → Alike v w x (a ≡ b) }
{}

/// The entry that maps an address, set (mmu_update `update_at`). The table that its account names is no part of what it does where the address leads to none.
pub fn an_update_by_address_is_determined()
    ensures { (v w x : PortValue) (o : Owners) (va word table other : ℕ) (answers others : List Bool) (a b : Result (Unit {0}) Stop) (says : ℕ → Bool) (n : ℕ) → GivesAnswers says n answers → GivesAnswers says n others → UpdatedAt v o va word table w answers a → UpdatedAt v o va word other x others b → Alike v w x ((answers ≡ others) × (a ≡ b)) }
{}

/// The pin of a live table, a typed reference to which is in hand (mmuext_ops `pin_live`).
pub fn a_pin_of_a_live_table_is_determined()
    ensures { (v w x : PortValue) (f level : ℕ) (a b : Result (Unit {0}) Stop) → PinEnds v w f level a → PinEnds v x f level b → Alike v w x (a ≡ b) }
{}

/// A pin, with all that it acquires (mmuext_ops `pin`).
pub fn a_pin_is_determined()
    ensures { (v w x : PortValue) (d f level : ℕ) (answers others : List Bool) (a b : Result (Unit {0}) Stop) (says : ℕ → Bool) (n : ℕ) → GivesAnswers says n answers → GivesAnswers says n others → Pinned v w d f level answers a → Pinned v x d f level others b → Alike v w x ((answers ≡ others) × (a ≡ b)) }
{}

/// An unpin, with all that it releases (mmuext_ops `unpin`).
pub fn an_unpin_is_determined()
    ensures { (v w x : PortValue) (d f : ℕ) (answers others : List Bool) (a b : Result (Unit {0}) Stop) (says : ℕ → Bool) (n : ℕ) → GivesAnswers says n answers → GivesAnswers says n others → Unpinned v w d f answers a → Unpinned v x d f others b → Alike v w x ((answers ≡ others) × (a ≡ b)) }
{}

/// One element of `mmuext_op`, which may go on with a wait (mmuext_ops `perform`).
pub fn an_extended_operation_is_determined()
    ensures { (v w x : PortValue) (d : ℕ) (e : elements.Element) (awaited : Option ℕ) (answers others : List Bool) (a b : Result (Unit {0}) Stop) (says : ℕ → Bool) (n : ℕ) → GivesAnswers says n answers → GivesAnswers says n others → Performed v w d e awaited answers a → Performed v x d e awaited others b → Alike v w x ((answers ≡ others) × (a ≡ b)) }
{}
