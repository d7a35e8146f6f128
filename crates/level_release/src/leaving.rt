//! Tables whose release is unfinished.
ghost use Rattle.std.specs.Prelude.{◌≢◌, ◌-◌, ◌∷◌, [], false, List};
ghost use Rattle.step_maker.specs.Holds.{Holds, MayWork};
ghost use Rattle.step_maker.specs.Moves.{Came};
ghost use Rattle.kind_words.specs.Kinds.{left, partial_kind};
ghost use Rattle.partial_state.specs.Levels.{level_type};
ghost use Rattle.partial_state.specs.declared.stack.TableWork.{TableWork};
ghost use Rattle.level_release.specs.Course.{LeftInside, StoredPartial, UnwoundDown};
ghost use Rattle.level_release.specs.Holding.{IsReleasing, LeavesNamed, MayUnwind, StaysEmptying};

use kind_words::{leave, partial_kind};
use partial_state::{Stack, TableWork, level_type};
use table_words::{OldWord, put_old, record_entry};
use xp_board::Port;

/// Leaves all tables partial, the innermost first: each is recorded again as the last entry of the one around it, and the outermost
/// one is named in the first old word, which is known to name none.
pub(crate) fn unwind<P: Port>(port: &mut P, stack: &mut Stack)
    requires { MayUnwind (P.value port.old) stack.old }
    ensures came { Came (P.value port.old) (P.value port.new) }
    ensures hand { LeavesNamed (P.value port.old) (P.value port.new) stack.old }
    ensures course { UnwoundDown (P.value port.old) stack.old (P.value port.new) }
{
    while let Some(table) = stack.pop() {
        if stack.is_empty() {
            leave_outermost(port, table);
        } else {
            leave_inside(port, stack, table);
        }
    }
}

// The outermost table.
fn leave_outermost<P: Port>(port: &mut P, table: TableWork)
    requires { MayUnwind (P.value port.old) (table ∷ []) }
    ensures came { Came (P.value port.old) (P.value port.new) }
    ensures hand { LeavesNamed (P.value port.old) (P.value port.new) (table ∷ []) }
    ensures course { UnwoundDown (P.value port.old) (table ∷ []) (P.value port.new) }
{
    leave_partial(port, table);
    put_old(port, OldWord::First, table.frame);
}

// A table inside another one, which was popped from the stack. The entry that names it is recorded again.
fn leave_inside<P: Port>(port: &mut P, stack: &mut Stack, table: TableWork)
    requires may { MayWork (P.value port.old) }
    requires stands { IsReleasing (P.value port.old) (table ∷ stack.old) }
    requires inner { stack.old ≢ [] }
    ensures came { Came (P.value port.old) (P.value port.new) }
    ensures stands { StaysEmptying (P.value port.old) (P.value port.new) (table ∷ stack.old) stack.new }
    ensures course { LeftInside (P.value port.old) table stack.old (P.value port.new) stack.new }
{
    leave_partial(port, table);
    stack.retreat();
    if let Some(outer) = stack.top() {
        record_entry(port, outer.frame, 512 - outer.done);
    }
}

// The kind word of the innermost table, with so many entries as are still recorded. Its type count is in hand then.
fn leave_partial<P: Port>(port: &mut P, table: TableWork)
    requires may { MayWork (P.value port.old) }
    requires stands { (ts : List TableWork) × IsReleasing (P.value port.old) (table ∷ ts) }
    ensures course { StoredPartial (P.value port.old) (P.value port.new) table }
    ensures hand { Holds (P.value port.old) (P.value port.new) (left (P.value port.old) table.frame (partial_kind (level_type table.level) false false (512 - table.done) 0)) }
{
    leave(
        port,
        table.frame,
        partial_kind(level_type(table.level), false, 512 - table.done),
    );
}
