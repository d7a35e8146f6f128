//! Tables of which all entries are recorded.
ghost use Rattle.std.specs.Prelude.{◌≡◌, ◌<◌, ◌∷◌, List, [], ℕ, None, Ok, true, drop};
ghost use Rattle.xp_words.specs.KindWords.{kind_write};
ghost use Rattle.xp_words.specs.declared.place.Place.TheVariants.{Kind};
ghost use Rattle.xp_board.specs.declared.step.Act.TheVariants.{Store};
ghost use Rattle.xp_board.specs.declared.step.StepKind.TheVariants as kinds;
ghost use Rattle.step_maker.specs.Holds.{Holds, MayWork};
ghost use Rattle.step_maker.specs.Moves.{Moves};
ghost use Rattle.kind_words.specs.Kinds.{MayLeave, left, live_kind};
ghost use Rattle.partial_state.specs.Levels.{level_type};
ghost use Rattle.partial_state.specs.declared.stack.TableWork.{TableWork};
ghost use Rattle.table_entries.specs.Acquiring.{Advanced, GaveBack, MadeLive, type_counts};
ghost use Rattle.level_validate.specs.Completing.{IsInnerFull};
ghost use Rattle.level_validate.specs.Giving.{MayGiveBack};
ghost use Rattle.level_validate.specs.Tables.{IsTopReady, IsStanding};

use frame_types::drop_type;
use frame_words::put_ref;
use kind_words::{leave, live_kind};
use partial_state::{Stack, TableWork, level_type};
use table_words::record_entry;
use xp_board::Port;

/// Makes the only table in work live, of which all entries are recorded. A typed reference to it is in hand.
pub(crate) fn complete_outer<P: Port>(port: &mut P, table: TableWork)
    requires may { MayWork (P.value port.old) }
    requires stands { (owner : ℕ) × IsStanding (P.value port.old) owner (table ∷ []) }
    requires ready { IsTopReady (P.value port.old) }
    requires full { table.done ≡ 512 }
    ensures { MadeLive (P.value port.old) (P.value port.new) table }
{
    make_live(port, table);
}

/// Makes the innermost table live, of which all entries are recorded, and which is not the only one. The entry that names it is recorded; or,
/// where it was recorded before, the reference in hand is given back.
pub(crate) fn complete_inner<P: Port>(port: &mut P, stack: &mut Stack)
    requires may { MayWork (P.value port.old) }
    requires stands { (owner : ℕ) × IsStanding (P.value port.old) owner stack.old }
    requires ready { IsTopReady (P.value port.old) }
    requires full { IsInnerFull stack.old }
    ensures popped { stack.new ≡ drop 1 stack.old }
    ensures course { (owner : ℕ) → Advanced owner (P.value port.old) stack.old (P.value port.new) stack.new (Ok true) }
{
    if let Some(table) = stack.pop() {
        if let Some(outer) = stack.top() {
            complete_in(port, table, outer);
        } else {
            unreachable!()
        }
    } else {
        unreachable!()
    }
}

// The same by the two innermost tables.
fn complete_in<P: Port>(port: &mut P, table: TableWork, outer: TableWork)
    requires may { MayWork (P.value port.old) }
    requires stands { (owner : ℕ) × (us : List TableWork) × IsStanding (P.value port.old) owner (table ∷ outer ∷ us) }
    requires ready { IsTopReady (P.value port.old) }
    requires full { table.done ≡ 512 }
    ensures { (owner : ℕ) (us : List TableWork) → Advanced owner (P.value port.old) (table ∷ outer ∷ us) (P.value port.new) (outer ∷ us) (Ok true) }
{
    make_live(port, table);
    if table.recorded {
        give_back(port, table.frame);
    } else {
        record_entry(port, outer.frame, outer.done);
    }
}

// The innermost table is live then, with its type count in hand, or with a second one beside another holder's.
fn make_live<P: Port>(port: &mut P, table: TableWork) -> u64
    requires frame { table.frame < (P.value port.old).post.machine.frames }
    requires may { MayWork (P.value port.old) }
    requires leaves { MayLeave (P.value port.old) table.frame (live_kind (level_type table.level) (type_counts table.own)) }
    ensures moves { Moves (P.value port.old) (P.value port.new) (Kind table.frame) (Store (kind_write (live_kind (level_type table.level) (type_counts table.own)))) kinds.Kind None result }
    ensures hand { Holds (P.value port.old) (P.value port.new) (left (P.value port.old) table.frame (live_kind (level_type table.level) (type_counts table.own))) }
{
    let number = if table.own { 1 } else { 2 };
    let live = live_kind(level_type(table.level), number);
    leave(port, table.frame, live)
}

/// Gives a typed reference in hand back, of a frame that is known live and whose type an entry of a table in work has too: so it is not
/// the last one.
pub(crate) fn give_back<P: Port>(port: &mut P, frame: u32)
    requires frame { frame < (P.value port.old).post.machine.frames }
    requires may { MayWork (P.value port.old) }
    requires gives { MayGiveBack (P.value port.old).post.machine (P.value port.old).post.vcpu frame (P.value port.old).holdings }
    ensures { GaveBack (P.value port.old) (P.value port.new) frame }
{
    if drop_type(port, frame) {
        unreachable!("an entry has the type too")
    } else {
        put_ref(port, frame)
    }
}
