//! Frames that are taken as page tables: validated entry by entry, until the outermost table is full, or an entry stops it.
ghost use Rattle.std.specs.Prelude.{◌≡◌, ◌<◌, ◌≤◌, ◌∷◌, ℕ, [], Some, true, false, not, ◌&&◌, length, IfOk, IfErr};
ghost use Rattle.step_maker.specs.Holds.{MayWork};
ghost use Rattle.step_maker.specs.Moves.{Came};
ghost use Rattle.step_maker.specs.Answers.{Stops};
ghost use Rattle.frame_types.specs.Plain.{is_refused};
ghost use Rattle.partial_state.specs.Levels.{level_type};
ghost use Rattle.table_words.specs.OldWords.{known_old};
ghost use Rattle.table_words.specs.declared.old_words.OldWord.TheVariants.{First};
ghost use Rattle.partial_state.specs.Weights.{weight};
ghost use Rattle.table_entries.specs.Acquiring.{Advanced, WaitingLeft, Worked, is_asked};
ghost use Rattle.level_validate.specs.Acquiring.{AcquiresBy, IsAcquireStop, IsTableWaiting, LeavesAcquired, LeavesWaiting, ServesAcquired, is_due_answer, is_filled, of_acquire};
ghost use Rattle.level_validate.specs.Courses.{GoesOnFilling, ValidatesBy, asked_once};
ghost use Rattle.level_validate.specs.Serving.{ServesWaiting};
ghost use Rattle.level_validate.specs.Tables.{IsIdle, IsStanding, IsTopReady};
ghost use Rattle.xp_preempt.specs.Gates.{Gated};
ghost use Rattle.xp_words.specs.declared.reply.Pause.TheVariants.{Due};
ghost use Rattle.xp_words.specs.declared.reply.Stop.TheVariants.{Paused};

use crate::completing::{complete_inner, complete_outer};
use crate::entering::{enter, take_on};
use crate::unwinding::unwind;
use frame_types::{Taken, leave_shared, leave_unsettled, take_type};
use frame_words::{get_ref, put_ref};
use kept_marks::leave_kept;
use kind_words::waiting_kind;
use partial_state::{Stack, TableWork, is_xen_slot, level_type};
use table_words::{OldWord, put_old};
use xp_board::Port;
use xp_preempt::Preempt;
use xp_words::{Pause, Stop};

/// Takes a frame of the domain `owner` as a page table of that level, 1 to 4, and with it all that its entries ask, down to the
/// pages, which are to be that domain's too. A table that was left unfinished is taken on where it was left. The gate is asked behind each entry, but in the
/// slots that are Xen's (`ROOT_PAGETABLE_FIRST_XEN_SLOT` to `_LAST_`), and not where the table is then full. A refusal or a pause leaves
/// all tables in work partial; the outermost one's reference goes into its `kept` mark (a pause) or into the first old word (a refusal, or a
/// pause where the frame is another domain's, which is dying), which is known to name no frame.
pub fn acquire<P: Port>(
    port: &mut P,
    gate: &mut dyn Preempt,
    f: u64,
    owner: u16,
    level: u8,
) -> Result<u32, Stop>
    requires may { MayWork (P.value port.old) }
    requires idle { IsIdle (P.value port.old) }
    requires real { owner < length (P.value port.old).post.machine.page_limit }
    requires low { 1 ≤ level }
    requires high { level ≤ 4 }
    requires room { known_old First (P.value port.old).holdings ≡ Some 0 }
    ensures frame { IfOk result (λ g. (g ≡ f) × (g < (P.value port.old).post.machine.frames)) }
    ensures serves { (pages : ℕ) → ServesAcquired (P.value port.old) (P.value port.new) f owner level pages result }
    ensures stops { (pages : ℕ) → IfErr result (λ e. Stops (P.value port.old) (P.value port.new) (of_acquire (P.value port.old) f owner level pages result) e) }
    ensures kinds { IfErr result IsAcquireStop }
    ensures hand { LeavesAcquired (P.value port.old) (P.value port.new) f owner level result }
    // By which calls on frames and entries, one behind the other, and by which answers of the gate.
    ensures course { AcquiresBy (P.value port.old) (P.value port.new) f owner level (policy gate.old) (policy gate.new) result }
{
    let frame = get_ref(port, f, owner)?;
    match take_type(port, frame, owner, level_type(level)) {
        Ok(Taken::Counted) => Ok(frame),
        Ok(Taken::InWork { progress, own }) => {
            let table = TableWork {
                frame,
                level,
                done: progress,
                own,
                recorded: false,
            };
            validate(port, gate, owner, table)?;
            Ok(frame)
        }
        Ok(Taken::Waiting { own, stamp, stop }) => {
            leave_waiting(port, frame, level, owner, own, stamp, is_paused(stop));
            Err(stop)
        }
        Err(stop) => {
            put_ref(port, frame);
            Err(stop)
        }
    }
}

fn is_paused(stop: Stop) -> bool
    ensures { result ≡ not (is_refused stop) }
{
    matches!(stop, Stop::Paused(_))
}

// Leaves the frame of that owner, which waits for a flush that is not to be had. `own`: its type count is in hand, and goes into its `kept`
// mark or into the first old word; else the frame is left as another holder left it.
fn leave_waiting<P: Port>(
    port: &mut P,
    frame: u32,
    level: u8,
    owner: u16,
    own: bool,
    stamp: u64,
    kept: bool,
)
    requires frame { frame < (P.value port.old).post.machine.frames }
    requires may { MayWork (P.value port.old) }
    requires low { 1 ≤ level }
    requires high { level ≤ 4 }
    requires waits { IsTableWaiting (P.value port.old) frame level owner own stamp }
    requires real { owner < length (P.value port.old).post.machine.page_limit }
    requires room { known_old First (P.value port.old).holdings ≡ Some 0 }
    ensures came { Came (P.value port.old) (P.value port.new) }
    ensures serves { ServesWaiting (P.value port.old) (P.value port.new) frame level owner kept }
    ensures hand { LeavesWaiting (P.value port.old) (P.value port.new) frame level owner own stamp kept }
    ensures course { WaitingLeft (P.value port.old) (P.value port.new) frame level owner stamp own kept }
{
    let kind = level_type(level);
    if !own {
        leave_shared(port, frame, kind, stamp);
    } else if kept {
        leave_kept(port, frame, waiting_kind(kind, true, stamp), owner);
    } else {
        leave_unsettled(port, frame, kind, stamp);
        put_old(port, OldWord::First, frame);
    }
}

// Validates the only table in work. On a refusal or a pause all tables in work are left partial.
fn validate<P: Port>(
    port: &mut P,
    gate: &mut dyn Preempt,
    owner: u16,
    table: TableWork,
) -> Result<(), Stop>
    requires may { MayWork (P.value port.old) }
    requires real { owner < length (P.value port.old).post.machine.page_limit }
    requires stands { IsStanding (P.value port.old) owner (table ∷ []) }
    requires fresh { table.done ≡ 0 → IsTopReady (P.value port.old) }
    requires room { known_old First (P.value port.old).holdings ≡ Some 0 }
    ensures kinds { IfErr result IsAcquireStop }
    ensures course { Gated (policy gate.old) (policy gate.new) (is_due_answer result) (λ answers. ValidatesBy owner (P.value port.old) table (P.value port.new) answers result) }
{
    let mut stack = Stack::new();
    stack.push(table);
    match fill(port, gate, owner, &mut stack, table) {
        Ok(()) => {
            complete_outer(port, TableWork { done: 512, ..table });
            Ok(())
        }
        Err(stop) => {
            unwind(port, &mut stack, is_paused(stop), owner);
            Err(stop)
        }
    }
}

// Goes on until all entries of that table are recorded, which is the only one at first and at the end.
fn fill<P: Port>(
    port: &mut P,
    gate: &mut dyn Preempt,
    owner: u16,
    stack: &mut Stack,
    table: TableWork,
) -> Result<(), Stop>
    requires may { MayWork (P.value port.old) }
    requires only { stack.old ≡ table ∷ [] }
    requires stands { IsStanding (P.value port.old) owner (table ∷ []) }
    requires fresh { table.done ≡ 0 → IsTopReady (P.value port.old) }
    ensures filled { IfOk result (λ _. is_filled stack.new ≡ true) }
    ensures kinds { IfErr result IsAcquireStop }
    ensures course { Gated (policy gate.old) (policy gate.new) (is_due_answer result) (λ answers. Worked owner (P.value port.old) table (P.value port.new) stack.new answers result) }
{
    let done = take_on(port, owner, stack, table)?;
    ask_behind(gate, stack, done)?;
    while !is_filled(stack) {
        go_on(port, gate, owner, stack)?;
    }
    Ok(())
}

// One entry more, or one table, and then the gate is asked.
fn go_on<P: Port>(
    port: &mut P,
    gate: &mut dyn Preempt,
    owner: u16,
    stack: &mut Stack,
) -> Result<(), Stop>
    requires may { MayWork (P.value port.old) }
    requires stands { IsStanding (P.value port.old) owner stack.old }
    requires ready { IsTopReady (P.value port.old) }
    requires more { is_filled stack.old ≡ false }
    ensures less { IfOk result (λ _. weight stack.new < weight stack.old) }
    ensures kinds { IfErr result IsAcquireStop }
    ensures course { Gated (policy gate.old) (policy gate.new) (is_due_answer result) (λ answers. GoesOnFilling owner (P.value port.old) stack.old (P.value port.new) stack.new answers result) }
{
    let done = advance(port, owner, stack)?;
    ask_behind(gate, stack, done)
}

// Asks the gate, where an entry is done with behind which it is asked.
fn ask_behind(gate: &mut dyn Preempt, stack: &Stack, done: bool) -> Result<(), Stop>
    ensures kinds { IfErr result (λ e. e ≡ Paused Due) }
    ensures course { Gated (policy gate.old) (policy gate.new) (is_due_answer result) (λ answers. answers ≡ asked_once (done && is_asked stack.now) (is_due_answer result)) }
{
    if done {
        if is_asked(stack) {
            if gate.due() {
                return Err(Stop::Paused(Pause::Due));
            }
        }
    }
    Ok(())
}

// True: an entry is done with. A full table inside another one is made live, else the next entry is taken.
fn advance<P: Port>(port: &mut P, owner: u16, stack: &mut Stack) -> Result<bool, Stop>
    requires may { MayWork (P.value port.old) }
    requires stands { IsStanding (P.value port.old) owner stack.old }
    requires ready { IsTopReady (P.value port.old) }
    requires more { is_filled stack.old ≡ false }
    ensures less { IfOk result (λ _. weight stack.new < weight stack.old) }
    ensures kinds { IfErr result IsAcquireStop }
    ensures undue { is_due_answer result ≡ false }
    ensures course { Advanced owner (P.value port.old) stack.old (P.value port.new) stack.new result }
{
    let Some(top) = stack.top() else {
        unreachable!()
    };
    if top.done == 512 {
        complete_inner(port, stack);
        return Ok(true);
    }
    enter(port, owner, stack)
}

fn is_filled(stack: &Stack) -> bool
    ensures { result ≡ is_filled stack.now }
{
    if stack.len() > 1 {
        return false;
    }
    match stack.top() {
        Some(top) => top.done == 512,
        None => true,
    }
}

// Whether the gate is asked behind the last entry that is done with.
fn is_asked(stack: &Stack) -> bool
    ensures { result ≡ is_asked stack.now }
{
    match stack.top() {
        Some(top) => top.done != 512 && !is_xen_slot(top.level, top.done.saturating_sub(1)),
        None => false,
    }
}
