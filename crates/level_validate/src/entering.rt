//! The next entry of the innermost table, and the last recorded one of a table that was left unfinished.
ghost use Rattle.std.specs.Prelude.{◌≡◌, ◌+◌, ◌<◌, ◌∷◌, drop, IfOk, IfErr};
ghost use Rattle.step_maker.specs.Holds.{MayWork};
ghost use Rattle.table_entries.specs.Asking.{IsEntryStop};
ghost use Rattle.partial_state.specs.Stacks.{left_on_top};
ghost use Rattle.partial_state.specs.Weights.{entry_weight, weight};
ghost use Rattle.table_entries.specs.Acquiring.{Advanced, TookOn};
ghost use Rattle.level_validate.specs.Tables.{IsTopReady, IsStanding};

use crate::completing::give_back;
use frame_types::leave_shared;
use partial_state::{Stack, TableWork, level_type};
use table_entries::{Entered, Resumed, TableEntry, resume_entry, take_entry};
use xp_board::Port;
use xp_words::Stop;

/// Takes the next entry of the innermost table. Where it names a table that is to be validated first, that one is the innermost then.
/// True: an entry is done with.
pub(crate) fn enter<P: Port>(port: &mut P, owner: u16, stack: &mut Stack) -> Result<bool, Stop>
    requires may { MayWork (P.value port.old) }
    requires stands { IsStanding (P.value port.old) owner stack.old }
    requires ready { IsTopReady (P.value port.old) }
    requires left { 0 < left_on_top stack.old }
    ensures kinds { IfErr result IsEntryStop }
    // What is left to do grows less.
    ensures less { IfOk result (λ _. weight stack.new < weight stack.old) }
    ensures course { Advanced owner (P.value port.old) stack.old (P.value port.new) stack.new result }
{
    let Some(top) = stack.top() else {
        unreachable!()
    };
    let at = TableEntry {
        table: top.frame,
        kind: level_type(top.level),
        index: top.done,
        owner,
    };
    match take_entry(port, at)? {
        Entered::Recorded => {
            stack.advance();
            Ok(true)
        }
        Entered::Opened {
            frame,
            progress,
            own,
        } => {
            stack.advance();
            let inner = TableWork {
                frame,
                level: top.level - 1,
                done: progress,
                own,
                recorded: false,
            };
            stack.push(inner);
            take_on(port, owner, stack, inner)
        }
        Entered::Unsettled { stop } => {
            stack.advance();
            Err(stop)
        }
    }
}

// Looks at the last recorded entry of the innermost table, which came into work with some of its entries recorded. Its frame may have
// been left unfinished: then that one is taken on, and is the innermost table. True: a page that it names was not live, and is.
pub(crate) fn take_on<P: Port>(
    port: &mut P,
    owner: u16,
    stack: &mut Stack,
    top: TableWork,
) -> Result<bool, Stop>
    requires may { MayWork (P.value port.old) }
    requires top { stack.old ≡ top ∷ drop 1 stack.old }
    requires stands { IsStanding (P.value port.old) owner stack.old }
    requires fresh { top.done ≡ 0 → IsTopReady (P.value port.old) }
    ensures kinds { IfErr result IsEntryStop }
    ensures less { IfOk result (λ _. weight stack.new < weight stack.old + entry_weight top.level) }
    ensures course { TookOn owner (P.value port.old) stack.old (P.value port.new) stack.new result }
{
    if top.done == 0 {
        return Ok(false);
    }
    let at = TableEntry {
        table: top.frame,
        kind: level_type(top.level),
        index: top.done - 1,
        owner,
    };
    match resume_entry(port, at)? {
        Resumed::Settled => Ok(false),
        Resumed::Taken { frame } => {
            give_back(port, frame);
            Ok(true)
        }
        Resumed::Opened { frame, progress } => {
            let inner = TableWork {
                frame,
                level: top.level - 1,
                done: progress,
                own: false,
                recorded: true,
            };
            stack.push(inner);
            take_on(port, owner, stack, inner)
        }
        Resumed::Waiting { frame, stamp, stop } => {
            leave_shared(port, frame, level_type(top.level - 1), stamp);
            Err(stop)
        }
    }
}
