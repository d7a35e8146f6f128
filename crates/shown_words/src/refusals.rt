//! Words that refusals of elements and operations show.
ghost use Rattle.std.specs.Prelude.{ℕ, Bool, List, Option, Err};
ghost use Rattle.xp_words.specs.declared.reply.Refusal.{Refusal};
ghost use Rattle.xp_words.specs.declared.reply.Stop.TheVariants.{Refused};
ghost use Rattle.xp_board.specs.Told.{PortValue};
ghost use Rattle.foreign_map.specs.declared.owners.Owners.{Owners};
ghost use Rattle.mmu_update.specs.Fits.{Updates};
ghost use Rattle.mmu_update.specs.UpdatesAt.{UpdatesAt};
ghost use Rattle.mmu_update.specs.declared.element.Element as pairs;
ghost use Rattle.mmuext_ops.specs.declared.element.Element.{Element};
ghost use Rattle.reservations.specs.Extents.{Reserves};
ghost use Rattle.reservations.specs.declared.extents.Extent.{Extent};
ghost use Rattle.vcpu_turn.specs.Descriptors.{DescriptorFits, DescriptorTask};
ghost use Rattle.vcpu_turn.specs.Ext.{Performs};
ghost use Rattle.shown_words.specs.Shown.{ShowsSettled, StandsAlone};

/// By the only vCPU, with nothing in hand before it, an element or operation that is refused shows settled words: each word of a frame in the refusal is a spelling, and none is the reference word of
/// a frame that the vCPU is just giving back.
pub fn a_refusal_shows_settled_words()
    ensures elements { (v w : PortValue) (d : ℕ) (e : Element) (awaited : Option ℕ) (answers : List Bool) (r : Refusal) → StandsAlone v → Performs d e awaited v w answers (Err (Refused r)) → ShowsSettled r }
    ensures words { (v w : PortValue) (o : Owners) (e : pairs.Element) (answers : List Bool) (r : Refusal) → StandsAlone v → Updates o e v w answers (Err (Refused r)) → ShowsSettled r }
    ensures mapped { (v w : PortValue) (o : Owners) (va word : ℕ) (answers : List Bool) (r : Refusal) → StandsAlone v → UpdatesAt o va word v w answers (Err (Refused r)) → ShowsSettled r }
    ensures descriptors { (v w : PortValue) (t : DescriptorTask) (r : Refusal) → StandsAlone v → DescriptorFits t v w (Err (Refused r)) → ShowsSettled r }
    ensures extents { (v w : PortValue) (d size : ℕ) (e : Extent) (from to : ℕ) (r : Refusal) → StandsAlone v → Reserves d size e from v to w (Err (Refused r)) → ShowsSettled r }
{}
