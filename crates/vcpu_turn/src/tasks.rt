//! Operations that are built: what each asks for, and the work of a turn on it.
ghost use Rattle.std.specs.Prelude.{◌≡◌, ◌+◌, ◌≤◌, Some, None, IfSome, IfNone, vec_len, vec_capacity};
ghost use Rattle.xp_board.specs.Readings.{domain_of};
ghost use Rattle.step_maker.specs.Holds.{Rests};
ghost use Rattle.mmuext_ops.specs.Elements.{KnowsAwaited};
ghost use Rattle.vcpu_turn.specs.Cpus.{awaited_in, awaited_left, elements_in, left_waiting, lines_made, room_of, task_for, task_in, viewed};
ghost use Rattle.vcpu_turn.specs.Lists.{is_due_answer};
ghost use Rattle.vcpu_turn.specs.Settling.{IsWarm};
ghost use Rattle.vcpu_turn.specs.Working.{WentOn};
ghost use Rattle.xp_preempt.specs.Gates.{GatedPast};

use crate::accesses::{read, write};
use crate::cpu::{CallNumber, Progress};
use crate::descriptors::{Descriptors, work_on_descriptors};
use crate::ext::OwnElements;
use crate::extents::{Extents, go_through_extents};
use crate::mappings::{Mapping, awaited_behind, map_word};
use crate::working::{go_through, go_through_pairs, valued};
use mmuext_ops::awaited_of;
use xp_board::Port;
use xp_preempt::Preempt;
use xp_words::{Call, ExtOp, LogLine, Op, Pair, Pause, Refusal, Stop};

// The number that stands for the own domain (`DOMID_SELF` of `xen.h`).
const OWN_FRAMES: u64 = 0x7ff0;

// What an operation asks for.
#[derive(Drop)]
enum Viewed<'a> {
    Pairs {
        foreign: u64,
        pairs: &'a [Pair],
    },
    Ext(&'a [ExtOp]),
    Mem {
        command: u64,
        order: u64,
        items: &'a [u64],
    },
    Mapping(Mapping),
    Descriptors(Descriptors<'a>),
    Read {
        user: bool,
        va: u64,
    },
    Write {
        user: bool,
        va: u64,
        val: u64,
    },
}

// What a turn works on: an operation that is no multicall, or a call of one.
#[derive(Clone, Copy, Drop)]
pub(crate) enum Piece<'a> {
    Whole(&'a Op),
    Called(&'a Call),
}

fn task_in(call: &Call) -> Option<Viewed<'_>>
    ensures some { IfSome result (λ task. task_in call.now ≡ Some (viewed task)) }
    ensures none { IfNone result (task_in call.now ≡ None) }
{
    let task = match call {
        Call::Mmu { foreign, pairs } => Viewed::Pairs {
            foreign: *foreign,
            pairs: pairs.as_slice(),
        },
        Call::Ext { list } => Viewed::Ext(list.as_slice()),
        Call::Mem {
            command,
            order,
            items,
        } => Viewed::Mem {
            command: *command,
            order: *order,
            items: items.as_slice(),
        },
        Call::Va { va, val, flags } => Viewed::Mapping(Mapping {
            foreign: OWN_FRAMES,
            va: *va,
            word: *val,
            flags: *flags,
        }),
        Call::VaOther {
            va,
            val,
            flags,
            domain,
        } => Viewed::Mapping(Mapping {
            foreign: *domain,
            va: *va,
            word: *val,
            flags: *flags,
        }),
        Call::Gdt { entries, frames } => Viewed::Descriptors(Descriptors::Gdt {
            entries: *entries,
            frames: frames.as_slice(),
        }),
        Call::Desc { address, word } => Viewed::Descriptors(Descriptors::Descriptor {
            address: *address,
            word: *word,
        }),
    };
    Some(task)
}

fn task_of(piece: Piece<'_>) -> Option<Viewed<'_>>
    ensures some { IfSome result (λ task. task_for piece.entry ≡ Some (viewed task)) }
    ensures none { IfNone result (task_for piece.entry ≡ None) }
{
    match piece {
        Piece::Called(call) | Piece::Whole(Op::One { call }) => task_in(call),
        Piece::Whole(Op::TouchLdt { page }) => {
            Some(Viewed::Descriptors(Descriptors::Ldt { page: *page }))
        }
        Piece::Whole(Op::Read { user, va }) => Some(Viewed::Read {
            user: *user,
            va: *va,
        }),
        Piece::Whole(Op::Write { user, va, val }) => Some(Viewed::Write {
            user: *user,
            va: *va,
            val: *val,
        }),
        Piece::Whole(_) => None,
    }
}

// It was paused with so many elements done: past which clock value the next of them goes on to wait.
fn awaited_in(piece: Piece<'_>, done: u32, pause: Pause) -> Option<u64>
    ensures { result ≡ awaited_in (task_for piece.entry) done pause }
{
    match task_of(piece) {
        Some(Viewed::Ext(elements)) => match elements.get(done as usize) {
            Some(element) => awaited_of(*element, &Err(Stop::Paused(pause))),
            None => None,
        },
        Some(Viewed::Mapping(_)) => awaited_behind(done, pause),
        _ => None,
    }
}

// The same where it ended so; what is answered waits no more.
fn awaited_left(piece: Piece<'_>, done: u32, answer: Result<u64, Stop>) -> Option<u64>
    ensures { result ≡ awaited_left (task_for piece.entry) done answer }
{
    match answer {
        Err(Stop::Paused(pause)) => awaited_in(piece, done, pause),
        Ok(_) | Err(Stop::Refused(_)) => None,
    }
}

// How many lines it logs at most before its answer.
pub(crate) fn room_of(piece: Piece<'_>) -> usize
    ensures lines { result ≡ room_of (task_for piece.entry) }
    ensures few { result ≤ 512 }
{
    match task_of(piece) {
        Some(
            Viewed::Mem {
                command,
                order,
                items,
            },
        ) => {
            let list = Extents {
                domain: 0,
                number: CallNumber { op: 0, call: 0 },
                command,
                order,
                items,
            };
            list.room()
        }
        _ => 0,
    }
}

// It goes on from where it is, and its next element with a wait, where it was paused in one.
fn go_from<P: Port>(
    port: &mut P,
    gate: &mut dyn Preempt,
    domain: u16,
    piece: Piece<'_>,
    number: CallNumber,
    at: &mut Progress,
    log: &mut Vec<LogLine>,
) -> Result<u64, Stop>
    requires within { at.old.done ≤ elements_in (task_for piece) }
    requires own { domain ≡ domain_of (P.value port.old).post.machine (P.value port.old).post.vcpu }
    requires awaits { KnowsAwaited (P.value port.old) at.old.awaited }
    requires rests { Rests (P.value port.old) }
    requires warm { IsWarm (P.value port.old) }
    requires room { vec_len log.old + room_of (task_for piece) ≤ vec_capacity log.old + lines_made (task_for piece) at.old.done }
    ensures post { (P.value port.new).post ≡ (P.value port.old).post }
    ensures within { at.new.done ≤ elements_in (task_for piece.entry) }
    ensures awaits { KnowsAwaited (P.value port.new) (awaited_left (task_for piece.entry) at.new.done result) }
    ensures went { GatedPast (policy gate.old) (policy gate.new) (is_due_answer result) (λ answers. WentOn domain (task_for piece.entry) number (P.value port.old) at.old (left_waiting (task_for piece.entry) at.new result) (P.value port.new) log.old.items log.new.items answers result) }
    ensures capacity { vec_capacity log.new ≡ vec_capacity log.old }
    ensures room { vec_len log.new + lines_made (task_for piece.entry) at.old.done ≤ vec_len log.old + lines_made (task_for piece.entry) at.new.done }
    ensures rests { Rests (P.value port.new) }
    ensures warm { IsWarm (P.value port.new) }
{
    match task_of(piece) {
        None => {
            at.done = 0;
            Err(Stop::Refused(Refusal::BadCommand))
        }
        Some(Viewed::Pairs { foreign, pairs }) => {
            let done = &mut at.done;
            valued(go_through_pairs(port, gate, domain, foreign, pairs, done))
        }
        Some(Viewed::Ext(elements)) => {
            let items = OwnElements {
                elements,
                domain,
                from: at.done as usize,
                awaited: at.awaited,
            };
            valued(go_through(port, gate, &items, &mut at.done))
        }
        Some(
            Viewed::Mem {
                command,
                order,
                items,
            },
        ) => {
            let list = Extents {
                domain,
                number,
                command,
                order,
                items,
            };
            valued(go_through_extents(port, gate, &list, at, log))
        }
        Some(Viewed::Mapping(mapping)) => {
            let done = &mut at.done;
            valued(map_word(port, gate, domain, &mapping, done, at.awaited))
        }
        Some(Viewed::Descriptors(tables)) => {
            valued(work_on_descriptors(port, &tables, &mut at.done))
        }
        Some(Viewed::Read { user, va }) => read(port, user, va, &mut at.done),
        Some(Viewed::Write { user, va, val }) => {
            valued(write(port, user, va, val, &mut at.done))
        }
    }
}

/// The operation, or call, of that number goes on from where it is, which says in the end how far it came. The log has room for its lines.
pub(crate) fn work_on<P: Port>(
    port: &mut P,
    gate: &mut dyn Preempt,
    domain: u16,
    piece: Piece<'_>,
    number: CallNumber,
    at: &mut Progress,
    log: &mut Vec<LogLine>,
) -> Result<u64, Stop>
    requires within { at.old.done ≤ elements_in (task_for piece) }
    requires own { domain ≡ domain_of (P.value port.old).post.machine (P.value port.old).post.vcpu }
    requires awaits { KnowsAwaited (P.value port.old) at.old.awaited }
    requires rests { Rests (P.value port.old) }
    requires warm { IsWarm (P.value port.old) }
    requires room { vec_len log.old + room_of (task_for piece) ≤ vec_capacity log.old + lines_made (task_for piece) at.old.done }
    ensures post { (P.value port.new).post ≡ (P.value port.old).post }
    ensures within { at.new.done ≤ elements_in (task_for piece.entry) }
    ensures awaits { KnowsAwaited (P.value port.new) at.new.awaited }
    ensures went { GatedPast (policy gate.old) (policy gate.new) (is_due_answer result) (λ answers. WentOn domain (task_for piece.entry) number (P.value port.old) at.old at.new (P.value port.new) log.old.items log.new.items answers result) }
    ensures capacity { vec_capacity log.new ≡ vec_capacity log.old }
    ensures room { vec_len log.new + lines_made (task_for piece.entry) at.old.done ≤ vec_len log.old + lines_made (task_for piece.entry) at.new.done }
    ensures rests { Rests (P.value port.new) }
    ensures warm { IsWarm (P.value port.new) }
{
    let answer = go_from(port, gate, domain, piece, number, at, log);
    at.awaited = awaited_left(piece, at.done, answer);
    answer
}
