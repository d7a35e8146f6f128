//! The tables in work: how what is left to do goes on, and what a pause writes of it.
ghost use Rattle.std.specs.Prelude.{◌≡◌, ℕ, suc, ◌-◌, Bool, true, false, List, [], ◌∷◌};
ghost use Rattle.xp_words.specs.Machine.{Machine};
ghost use Rattle.xp_words.specs.declared.kind.PageType.{PageType};
ghost use Rattle.xp_words.specs.declared.entry.Demand.TheVariants.{Typed};
ghost use Rattle.xp_board.specs.Readings.{is_dead};
ghost use Rattle.kind_words.specs.Kinds.{live_kind, work_kind};
ghost use Rattle.partial_state.specs.Levels.{level_type};
ghost use Rattle.table_law.specs.Alone.{Cause, fine, refused, take_reference, alone};
ghost use Rattle.table_law.specs.Levels.{TableLeft, entry_of};
ghost use Rattle.table_law.specs.Plain.{Plain, with_kind};
ghost use Rattle.table_law.specs.Release.{undo};
ghost use Rattle.table_law.specs.Stack.{rest, table_left, next_met, parked, resumed_kinds, stack_told, IsStackIn, IsChain, IsInnermost, outermost};

/// A loop over the stack of tables in work does the plain acquisition: each thing that it does next leaves as it was what
/// there is to do and to answer. The acquisition begins with a dead table, of which all entries are ahead. An entry is met;
/// or it is the first one that is not, and then all that is recorded is given back; one that names a dead table opens it;
/// and a table of which no entry is ahead is live.
pub fn the_rest_goes_on_by_entries()
    ensures begins { (n : Machine) (owner l f : ℕ) (p q : Plain) → take_reference n owner f p ≡ fine q → is_dead (q.kinds f) ≡ true →
        alone n owner (suc l) f p ≡ rest n owner (table_left f l 512 ∷ []) (with_kind f (work_kind (level_type (suc l)) false 0) q) }
    ensures met { (n : Machine) (owner f l k : ℕ) (xs : List TableLeft) (p q : Plain) → next_met n owner f l k p ≡ fine q →
        rest n owner (table_left f l (suc k) ∷ xs) p ≡ rest n owner (table_left f l k ∷ xs) q }
    ensures stopped { (n : Machine) (owner f l k : ℕ) (xs : List TableLeft) (p q : Plain) (c : Cause) → next_met n owner f l k p ≡ refused c q →
        rest n owner (table_left f l (suc k) ∷ xs) p ≡ refused c (undo (table_left f l (suc k) ∷ xs) (512 - suc k) q) }
    ensures opened { (n : Machine) (owner f l k g : ℕ) (t : PageType) (xs : List TableLeft) (p q : Plain) →
        entry_of p (level_type (suc (suc l))) f (512 - suc k) ≡ Typed g t → take_reference n owner g p ≡ fine q → is_dead (q.kinds g) ≡ true →
        rest n owner (table_left f (suc l) (suc k) ∷ xs) p
        ≡ rest n owner (table_left g l 512 ∷ table_left f (suc l) k ∷ xs) (with_kind g (work_kind (level_type (suc l)) false 0) q) }
    ensures full { (n : Machine) (owner f l : ℕ) (xs : List TableLeft) (p : Plain) →
        rest n owner (table_left f l 0 ∷ xs) p ≡ rest n owner xs (with_kind f (live_kind (level_type (suc l)) 1) p) }
{}

/// A pause loses nothing. What it leaves in the kind words of the tables in work is read back: where each is taken into work
/// again, all frames are as they were; and the partial words tell the stack itself, from the outermost table down, each
/// table as what the last recorded entry of the one above asks, and how far each has come. So the last recorded entry of the
/// innermost one must not ask a partial frame of the type of a table: that would be told as one more.
pub fn a_pause_parks_what_a_resumption_reads()
    ensures resumed { (stack : List TableLeft) (kept : Bool) (p : Plain) → IsStackIn stack p → (g : ℕ) → resumed_kinds stack (parked stack kept p).kinds g ≡ p.kinds g }
    ensures told { (x : TableLeft) (xs : List TableLeft) (kept : Bool) (p : Plain) → IsStackIn (x ∷ xs) p → IsChain (x ∷ xs) p → IsInnermost p x.frame x.level (512 - x.ahead) →
        stack_told (outermost (x ∷ xs)).level (outermost (x ∷ xs)).frame (parked (x ∷ xs) kept p) [] ≡ x ∷ xs }
{}
