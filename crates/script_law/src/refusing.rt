//! What a refusal leaves, and an unpin behind a pin.
ghost use Rattle.std.specs.Prelude.{◌≡◌, ℕ, suc, ◌<◌, None};
ghost use Rattle.xp_words.specs.Machine.{Machine};
ghost use Rattle.xp_words.specs.declared.ops.ExtOp.{ExtOp};
ghost use Rattle.xp_words.specs.declared.ops.Pair.{Pair};
ghost use Rattle.foreign_map.specs.declared.owners.Owners.{Owners};
ghost use Rattle.script_law.specs.Elements.{ext_alone, pair_alone};
ghost use Rattle.step_maker.specs.Plain.{Words};
ghost use Rattle.table_law.specs.Lawful.{IsAtRest};
ghost use Rattle.table_law.specs.Undone.{CountsSome};
ghost use Rattle.script_law.specs.Frames.{pin, unpin};
ghost use Rattle.script_law.specs.Shown.{Shows, solo_in};
ghost use Rattle.script_law.specs.Untaken.{IsUntaken, TakesNothingRefused};
ghost use Rattle.script_law.specs.Values.{Solo, Whose};

/// An element of `mmu_update` or `mmuext_op` that is refused takes nothing: each reference count, type count, mark and cell is as before, and each word beside the frames. Dead frames alone may
/// have another type than they had. The premise is that each live frame has a type count, and each owned one a reference.
pub fn a_refused_element_takes_nothing()
    ensures pairs { (w : Whose) (o : Owners) (p : Pair) → TakesNothingRefused w.machine (pair_alone w o p) }
    ensures elements { (w : Whose) (op : ExtOp) → TakesNothingRefused w.machine (ext_alone w op) }
{}

/// Behind a pin that is done, at level 1 to 4, an unpin that is done leaves what the pin found: each reference count, type count, mark and cell is as before. Dead frames alone may have another type.
pub fn an_unpin_undoes_a_pin()
    ensures { (n : Machine) (d f l : ℕ) (s : Solo) → l < 4 → CountsSome n s.frames → (pin n d f (suc l) s).refusal ≡ None → (unpin n d f (pin n d f (suc l) s).left).refusal ≡ None →
        IsUntaken s (unpin n d f (pin n d f (suc l) s).left).left }
{}

/// The premise of these laws holds of each value whose words are at rest: no frame is unfinished then.
pub fn a_value_at_rest_counts_some()
    ensures shown { (n : Machine) (s : ℕ) (m : Words) (x : Solo) → Shows n s m x → IsAtRest n m → CountsSome n x.frames }
    ensures read { (n : Machine) (s : ℕ) (m : Words) → IsAtRest n m → CountsSome n (solo_in m s).frames }
{}
