//! Tables that are emptied, one in the other: the innermost first, and of each the highest recorded entry first.
ghost use Rattle.std.specs.Prelude.{◌≡◌, ◌≢◌, ◌<◌, ◌∷◌, [], Some, true, false, List, IfOk, IfErr};
ghost use Rattle.step_maker.specs.Holds.{MayWork};
ghost use Rattle.step_maker.specs.Moves.{Came};
ghost use Rattle.partial_state.specs.Weights.{weight};
ghost use Rattle.partial_state.specs.declared.stack.TableWork.{TableWork};
ghost use Rattle.table_releases.specs.Tops.{IsSettledTop};
ghost use Rattle.xp_words.specs.declared.reply.Pause.TheVariants.{Due};
ghost use Rattle.xp_words.specs.declared.reply.Stop.TheVariants.{Paused};
ghost use Rattle.level_release.specs.Asking.{IsReleaseEnd, is_due_answer};
ghost use Rattle.level_release.specs.Course.{EmptiesBy, Lowered, MadeDead, RunsDownBy, is_asked_down, is_asked_within, is_less, left_by};
ghost use Rattle.level_release.specs.Holding.{IsReleasing, LeavesEmptied, MayUnwind};

use crate::leaving::unwind;
use frame_words::put_ref;
use kind_words::{dead_kind, leave};
use partial_state::{Stack, TableWork, is_xen_slot, level_type};
use step_maker::look_clock;
use table_releases::{Released, release_entry};
use xp_board::Port;
use xp_preempt::Preempt;
use xp_words::{Pause, Stop};

/// Empties the only table in hand, and leaves it dead. A pause leaves all tables partial, and the outermost one is named in the first
/// old word. The gate is asked only where less than `left` is left; where it pauses the work, `left` is what is left then.
pub(crate) fn empty<P: Port>(
    port: &mut P,
    gate: &mut dyn Preempt,
    table: TableWork,
    left: &mut Option<u64>,
) -> Result<(), Stop>
    requires { MayUnwind (P.value port.old) (table ∷ []) }
    ensures came { Came (P.value port.old) (P.value port.new) }
    ensures hand { LeavesEmptied (P.value port.old) (P.value port.new) table result }
    ensures kinds { IfErr result IsReleaseEnd }
    ensures settled { IsSettledTop (P.value port.old).holdings → IfErr result (λ e. e ≡ Paused Due) }
    ensures course { EmptiesBy left.old left.new (P.value port.old) (P.value port.new) table (policy gate.old) (policy gate.new) result }
{
    let mut stack = Stack::new();
    stack.push(table);
    match run_down(port, gate, &mut stack, *left) {
        Ok(()) => Ok(()),
        Err(stop) => {
            *left = left_by(*left, stop, &stack);
            unwind(port, &mut stack);
            Err(stop)
        }
    }
}

// The number that is kept behind such a stop, with these tables in work.
fn left_by(before: Option<u64>, stop: Stop, stack: &Stack) -> Option<u64>
    ensures { result ≡ left_by before stop stack.now }
{
    match stop {
        Stop::Paused(Pause::Due) => Some(stack.weight()),
        _ => before,
    }
}

// Goes on until no table is left.
fn run_down<P: Port>(
    port: &mut P,
    gate: &mut dyn Preempt,
    stack: &mut Stack,
    below: Option<u64>,
) -> Result<(), Stop>
    requires may { MayWork (P.value port.old) }
    requires stands { IsReleasing (P.value port.old) stack.old }
    ensures emptied { IfOk result (λ _. stack.new ≡ []) }
    ensures some { IfErr result (λ _. stack.new ≢ []) }
    ensures kinds { IfErr result IsReleaseEnd }
    ensures course { RunsDownBy below (P.value port.old) stack.old (P.value port.new) stack.new (policy gate.old) (policy gate.new) result }
{
    while !stack.is_empty() {
        if lower(port, stack)? {
            if is_asked(stack, below) {
                if gate.due() {
                    return Err(Stop::Paused(Pause::Due));
                }
            }
        }
    }
    Ok(())
}

// The last recorded entry of the innermost table is given back, or names a table that is then the innermost; or that table is empty, and
// left dead. True: an entry is done with.
fn lower<P: Port>(port: &mut P, stack: &mut Stack) -> Result<bool, Stop>
    requires may { MayWork (P.value port.old) }
    requires stands { IsReleasing (P.value port.old) stack.old }
    requires some { stack.old ≢ [] }
    ensures course { Lowered (P.value port.old) stack.old (P.value port.new) stack.new result }
    ensures kept { IfErr result (λ _. stack.new ≡ stack.old) }
    ensures less { IfOk result (λ _. weight stack.new < weight stack.old) }
    ensures kinds { IfErr result IsReleaseEnd }
    ensures undue { is_due_answer result ≡ false }
{
    let Some(top) = stack.top() else {
        unreachable!()
    };
    if top.done == 512 {
        stack.pop();
        close(port, top);
        return Ok(true);
    }
    match release_entry(port, top.frame, level_type(top.level), 511 - top.done)? {
        Released::Given => {
            stack.advance();
            Ok(true)
        }
        Released::Opened {
            frame,
            recorded,
            closing,
        } => {
            stack.advance();
            stack.push(TableWork {
                frame,
                level: top.level - 1,
                done: 512 - recorded,
                own: !closing,
                recorded: false,
            });
            Ok(false)
        }
    }
}

// The innermost table, of which nothing is recorded any more, is dead, and its reference given back.
fn close<P: Port>(port: &mut P, table: TableWork)
    requires may { MayWork (P.value port.old) }
    requires stands { (ts : List TableWork) × IsReleasing (P.value port.old) (table ∷ ts) }
    requires empty { table.done ≡ 512 }
    ensures { MadeDead (P.value port.old) (P.value port.new) table }
{
    let clock = look_clock(port);
    leave(
        port,
        table.frame,
        dead_kind(level_type(table.level), false, clock),
    );
    put_ref(port, table.frame);
}

// Whether the gate is asked behind the last entry that is done with: only where less is left than that.
fn is_asked(stack: &Stack, below: Option<u64>) -> bool
    ensures { result ≡ is_asked_within below stack.now }
{
    is_asked_down(stack) && is_less(below, stack)
}

fn is_less(below: Option<u64>, stack: &Stack) -> bool
    ensures { result ≡ is_less below (weight stack.now) }
{
    match below {
        None => true,
        Some(bound) => stack.weight() < bound,
    }
}

fn is_asked_down(stack: &Stack) -> bool
    ensures { result ≡ is_asked_down stack.now }
{
    match stack.top() {
        Some(top) => { top.done != 512 && !is_xen_slot(top.level, 512u16.saturating_sub(top.done)) }
        None => false,
    }
}
