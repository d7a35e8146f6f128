//! What is given back, by a release or where an acquisition is refused.
ghost use Rattle.std.specs.Prelude.{◌≡◌, ℕ, suc, ◌-◌, ◌<◌, true, false, List, [], ◌∷◌, Some, None};
ghost use Rattle.xp_words.specs.declared.kind.PageType.{PageType};
ghost use Rattle.xp_words.specs.declared.entry.Demand.TheVariants.{Typed};
ghost use Rattle.xp_words.specs.Machine.{Machine};
ghost use Rattle.partial_state.specs.Levels.{level_type};
ghost use Rattle.table_law.specs.Alone.{Cause, alone};
ghost use Rattle.table_law.specs.Undone.{CountsSome, IsSameButTypes};
ghost use Rattle.table_law.specs.Levels.{TableLeft, entry_of, closed};
ghost use Rattle.table_law.specs.Plain.{Plain, with_kind};
ghost use Rattle.table_law.specs.Release.{let_go, undo, drop_demand, is_counted_on, count_back, entries_held, emptying, keeps_mark};
ghost use Rattle.table_law.specs.Stack.{table_left};

/// A loop over unfinished tables gives back what they hold: each thing that it does next leaves as it was what there is to
/// give back. Of the innermost table the highest recorded entry goes first. Where its frame has other type counts, one count
/// and one reference go; else that frame is the innermost table now, with all its entries, or those recorded of one that was
/// unfinished, unless that awaits a flush; and it is closing, or in work again. A table with no recorded entry is dead. The release of
/// the last type count of a table begins with that table alone.
pub fn what_is_held_is_given_back_by_entries()
    ensures entry { (f l a k : ℕ) (xs : List TableLeft) (p : Plain) →
        undo (table_left f l a ∷ xs) (suc k) p ≡ undo (table_left f l a ∷ xs) k (drop_demand (let_go l) p (entry_of p (level_type (suc l)) f k)) }
    ensures counted { (f l a k g : ℕ) (t : PageType) (xs : List TableLeft) (p : Plain) → entry_of p (level_type (suc l)) f k ≡ Typed g t → is_counted_on (p.kinds g) ≡ true →
        undo (table_left f l a ∷ xs) (suc k) p ≡ undo (table_left f l a ∷ xs) k (count_back g (p.kinds g) p) }
    ensures opened { (f l a k g : ℕ) (t : PageType) (xs : List TableLeft) (p : Plain) → k < 512 → entry_of p (level_type (suc (suc l))) f k ≡ Typed g t →
        is_counted_on (p.kinds g) ≡ false → keeps_mark (p.kinds g) ≡ false →
        undo (table_left f (suc l) a ∷ xs) (suc k) p ≡ undo (table_left g l 0 ∷ table_left f (suc l) (511 - k) ∷ xs) (entries_held (p.kinds g)) (with_kind g (emptying (p.kinds g)) p) }
    ensures empty { (f l a g m b : ℕ) (xs : List TableLeft) (p : Plain) →
        undo (table_left f l a ∷ table_left g m b ∷ xs) 0 p ≡ undo (table_left g m b ∷ xs) (511 - b) (closed f (level_type (suc l)) p) }
    ensures last { (f l a : ℕ) (p : Plain) → undo (table_left f l a ∷ []) 0 p ≡ closed f (level_type (suc l)) p }
    ensures released { (l f : ℕ) (p : Plain) → is_counted_on (p.kinds f) ≡ false → keeps_mark (p.kinds f) ≡ false → let_go (suc l) f p ≡ undo (table_left f l 0 ∷ []) (entries_held (p.kinds f)) (with_kind f (emptying (p.kinds f)) p) }
{}

/// Where an acquisition is refused, all that it took is given back: each count is as before, and each kind word but those of
/// dead frames, which may have the type that was asked of them.
pub fn a_refused_acquisition_changes_only_types()
    ensures { (n : Machine) (owner l f : ℕ) (p : Plain) (c : Cause) → CountsSome n p → (alone n owner l f p).refusal ≡ Some c → IsSameButTypes p (alone n owner l f p).left }
{}

/// The same where it is fine, and then is released.
pub fn a_release_undoes_an_acquisition()
    ensures { (n : Machine) (owner l f : ℕ) (p : Plain) → CountsSome n p → (alone n owner l f p).refusal ≡ None → IsSameButTypes p (let_go l f (alone n owner l f p).left) }
{}
