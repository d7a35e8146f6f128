//! Tables in work that are left unfinished.
ghost use Rattle.std.specs.Prelude.{◌≡◌, ◌≢◌, ◌<◌, ◌∷◌, ℕ, Bool, [], List, Some, None, true, false, length};
ghost use Rattle.xp_words.specs.KindWords.{kind_write};
ghost use Rattle.xp_words.specs.declared.place.Place.TheVariants.{Kind};
ghost use Rattle.xp_board.specs.Told.{PortValue};
ghost use Rattle.xp_board.specs.declared.step.Act.TheVariants.{Store};
ghost use Rattle.xp_board.specs.declared.step.StepKind.TheVariants as kinds;
ghost use Rattle.step_maker.specs.Holds.{Holds, MayWork};
ghost use Rattle.step_maker.specs.Moves.{Came, Moves};
ghost use Rattle.kind_words.specs.Kinds.{partial_kind};
ghost use Rattle.table_words.specs.OldWords.{known_old};
ghost use Rattle.table_words.specs.declared.old_words.OldWord.TheVariants.{First};
ghost use Rattle.partial_state.specs.Levels.{level_type};
ghost use Rattle.partial_state.specs.declared.stack.TableWork.{TableWork};
ghost use Rattle.table_entries.specs.Acquiring.{GaveRef, InnerLeft, LeftPartial, OutermostLeft};
ghost use Rattle.level_validate.specs.Courses.{LeavesAll, UnwindsOn};
ghost use Rattle.level_validate.specs.Serving.{CarriesOn, ServesLeft, ServesTo};
ghost use Rattle.level_validate.specs.Tables.{IsStanding, StandsOn};
ghost use Rattle.level_validate.specs.Unwinding.{Unwinds, UnwindsTo, around_lent, left_so};

use frame_words::put_ref;
use kept_marks::leave_kept;
use kind_words::{leave, partial_kind};
use partial_state::{Stack, TableWork, level_type};
use table_words::{OldWord, put_old, record_entry};
use xp_board::Port;

/// Leaves all tables of that owner partial, the innermost first. `kept`: the outermost one's reference goes into its `kept` mark (a pause;
/// where the owner is another domain, which is dying, into the first old word); else into the first old word (a refusal), which is known to
/// name none.
pub(crate) fn unwind<P: Port>(port: &mut P, stack: &mut Stack, kept: bool, owner: u16)
    requires may { MayWork (P.value port.old) }
    requires stands { IsStanding (P.value port.old) owner stack.old }
    requires real { owner < length (P.value port.old).post.machine.page_limit }
    requires room { known_old First (P.value port.old).holdings ≡ Some 0 }
    ensures { LeavesAll (P.value port.old) (P.value port.new) owner kept stack.old }
{
    while let Some(table) = stack.pop() {
        leave_table(port, stack, table, kept, owner);
    }
}

// Leaves the innermost table, which was popped from the stack.
fn leave_table<P: Port>(port: &mut P, stack: &mut Stack, table: TableWork, kept: bool, owner: u16)
    requires may { MayWork (P.value port.old) }
    requires stands { IsStanding (P.value port.old) owner (table ∷ stack.old) }
    requires real { owner < length (P.value port.old).post.machine.page_limit }
    requires room { known_old First (P.value port.old).holdings ≡ Some 0 }
    ensures came { Came (P.value port.old) (P.value port.new) }
    ensures hand { UnwindsTo (P.value port.old) (P.value port.new) owner kept (table ∷ stack.old) stack.new }
    ensures fewer { length stack.new ≡ length stack.old }
    ensures around { (b : Bool) × (stack.new ≡ around_lent b stack.old) }
    ensures serves { ServesTo (P.value port.old) (P.value port.new) owner kept (table ∷ stack.old) stack.new }
    ensures course { UnwindsOn (P.value port.old) (P.value port.new) owner kept (table ∷ stack.old) stack.new }
{
    if stack.is_empty() {
        leave_outermost(port, table, kept, owner);
    } else {
        leave_inner(port, stack, table);
    }
}

// The outermost table.
fn leave_outermost<P: Port>(port: &mut P, table: TableWork, kept: bool, owner: u16)
    requires may { MayWork (P.value port.old) }
    requires stands { IsStanding (P.value port.old) owner (table ∷ []) }
    requires real { owner < length (P.value port.old).post.machine.page_limit }
    requires room { known_old First (P.value port.old).holdings ≡ Some 0 }
    ensures came { Came (P.value port.old) (P.value port.new) }
    ensures hand { Unwinds (P.value port.old) (P.value port.new) owner kept (table ∷ []) }
    ensures serves { ServesLeft (P.value port.old) (P.value port.new) owner kept table.frame (table ∷ []) [] }
    ensures course { OutermostLeft (P.value port.old) (P.value port.new) owner table table.own kept }
{
    if table.own {
        leave_named(port, table, kept, owner);
    } else {
        leave_lent(port, table);
    }
}

// The outermost table, whose type count is in hand.
fn leave_named<P: Port>(port: &mut P, table: TableWork, kept: bool, owner: u16)
    requires may { MayWork (P.value port.old) }
    requires stands { IsStanding (P.value port.old) owner (table ∷ []) }
    requires own { table.own ≡ true }
    requires real { owner < length (P.value port.old).post.machine.page_limit }
    requires room { known_old First (P.value port.old).holdings ≡ Some 0 }
    ensures came { Came (P.value port.old) (P.value port.new) }
    ensures hand { Unwinds (P.value port.old) (P.value port.new) owner kept (table ∷ []) }
    ensures serves { ServesLeft (P.value port.old) (P.value port.new) owner kept table.frame (table ∷ []) [] }
    ensures course { OutermostLeft (P.value port.old) (P.value port.new) owner table true kept }
{
    if kept {
        let kind = partial_kind(level_type(table.level), true, table.done);
        leave_kept(port, table.frame, kind, owner);
    } else {
        leave_partial(port, table);
        put_old(port, OldWord::First, table.frame);
    }
}

// A table inside another one. Where its type count is another holder's, an entry that is under way is not done with any more.
fn leave_inner<P: Port>(port: &mut P, stack: &mut Stack, table: TableWork)
    requires may { MayWork (P.value port.old) }
    requires stands { (owner : ℕ) × IsStanding (P.value port.old) owner (table ∷ stack.old) }
    requires inner { stack.old ≢ [] }
    ensures came { Came (P.value port.old) (P.value port.new) }
    ensures stands { (owner : ℕ) → StandsOn (P.value port.old) (P.value port.new) owner (table ∷ stack.old) stack.new }
    ensures around { (b : Bool) × (stack.new ≡ around_lent b stack.old) }
    ensures serves { (owner : ℕ) → CarriesOn (P.value port.old) (P.value port.new) owner (table ∷ stack.old) stack.new [] }
    ensures course { (owner : ℕ) (kept : Bool) → UnwindsOn (P.value port.old) (P.value port.new) owner kept (table ∷ stack.old) stack.new }
{
    if table.own {
        leave_own(port, stack, table);
    } else {
        leave_lent(port, table);
        if !table.recorded {
            stack.retreat();
        }
    }
}

// A table inside another one, whose type count is in hand. That goes into the entry that names the table, which is recorded with it.
fn leave_own<P: Port>(port: &mut P, stack: &Stack, table: TableWork)
    requires may { MayWork (P.value port.old) }
    requires stands { (owner : ℕ) × IsStanding (P.value port.old) owner (table ∷ stack.now) }
    requires own { table.own ≡ true }
    requires inner { stack.now ≢ [] }
    ensures came { Came (P.value port.old) (P.value port.new) }
    ensures stands { (owner : ℕ) → StandsOn (P.value port.old) (P.value port.new) owner (table ∷ stack.now) stack.now }
    ensures serves { (owner : ℕ) → CarriesOn (P.value port.old) (P.value port.new) owner (table ∷ stack.now) stack.now [] }
    ensures course { (outer : TableWork) (ts : List TableWork) → stack.now ≡ outer ∷ ts → InnerLeft (P.value port.old) (P.value port.new) table outer true }
{
    leave_partial(port, table);
    if let Some(outer) = stack.top() {
        record_entry(port, outer.frame, outer.done);
    }
}

// A table whose type count is another holder's.
fn leave_lent<P: Port>(port: &mut P, table: TableWork)
    requires may { MayWork (P.value port.old) }
    requires stands { (owner : ℕ) × (ts : List TableWork) × IsStanding (P.value port.old) owner (table ∷ ts) }
    requires lent { table.own ≡ false }
    ensures came { Came (P.value port.old) (P.value port.new) }
    ensures stands { (owner : ℕ) (ts : List TableWork) → StandsOn (P.value port.old) (P.value port.new) owner (table ∷ ts) (around_lent table.recorded ts) }
    ensures serves { (owner : ℕ) (ts : List TableWork) → CarriesOn (P.value port.old) (P.value port.new) owner (table ∷ ts) (around_lent table.recorded ts) [] }
    ensures course { (u : PortValue) × LeftPartial (P.value port.old) u table × GaveRef u (P.value port.new) table.frame }
{
    leave_partial(port, table);
    put_ref(port, table.frame);
}

// The innermost table's kind word, without a `kept` mark.
fn leave_partial<P: Port>(port: &mut P, table: TableWork) -> u64
    requires may { MayWork (P.value port.old) }
    requires stands { (owner : ℕ) × (ts : List TableWork) × IsStanding (P.value port.old) owner (table ∷ ts) }
    ensures moves { Moves (P.value port.old) (P.value port.new) (Kind table.frame) (Store (kind_write (partial_kind (level_type table.level) false false table.done 0))) kinds.Kind None result }
    ensures hand { Holds (P.value port.old) (P.value port.new) (left_so table.frame (P.value port.old).holdings) }
{
    let kind = partial_kind(level_type(table.level), false, table.done);
    leave(port, table.frame, kind)
}
