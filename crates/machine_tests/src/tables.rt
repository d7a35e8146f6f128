//! Frames that are taken as page tables, with all that their entries ask.

ghost use Rattle.std.specs.Prelude.{◌≡◌, IfErr, IfSome};
ghost use Rattle.step_maker.specs.Holds.{MayWork, Rests};
ghost use Rattle.level_validate.specs.Tables.{IsIdle};
ghost use Rattle.level_validate.specs.Unwinding.{own_domain};
ghost use Rattle.xp_machine.specs.Ready.{TakesFresh};

use crate::boards::{at_work, board_at};
use kind_words::look_kind;
use level_validate::acquire;
use shared_board::PlainBoard;
use std::process::Abort;
use table_words::{OldWord, look_old};
use xp_board::Port;
use xp_preempt::{Listed, Never, Preempt};
use xp_words::{PageType, Pause, Refusal, Stop};

// Frames 0 to 3 are domain 0's, and frame 4 is domain 1's. Entry 0 of frame 0 leads to frame 1, whose entries 0 and 5 map
// frame 2 writable and frame 3 read-only.
const TREE: &str =
    "xen-pv-trace 1\nframes 5\ndomain 4\ndomain 1\nvcpu 0\nown 0 0 4\nown 1 4 1\ncell 0 0 1 0x1007\ncell 1 0 1 0x2003\ncell 1 5 1 0x3001\n";

// The reference word of frame 4.
const OF_ANOTHER: u64 = 0x8000_0001_8000_0001;

// Kind words: of a frame that was never taken, of ordinary memory, and of tables with one type count.
const NEVER_TAKEN: u64 = 0;

const PAGE: u64 = 0x0074_0000_0000_0001;

const LIVE_L1: u64 = 0x0014_0000_0000_0001;

const LIVE_L2: u64 = 0x0024_0000_0000_0001;

// Partial, with no entry recorded; an entry that is recorded counts once.
const PARTIAL_L1: u64 = 0x0012_0000_0000_0000;

const PARTIAL_L2: u64 = 0x0022_0000_0000_0000;

// The same with the kept mark.
const KEPT_L2: u64 = 0x0022_8000_0000_0000;

const KEPT_L4: u64 = 0x0042_8000_0000_0000;

const ENTRY: u64 = 0x0010_0000_0000;

const FOREIGN: Refusal = Refusal::WrongOwner {
    frame: 4,
    found: OF_ANOTHER,
};

const RESERVED: Refusal = Refusal::Reserved {
    frame: 1,
    index: 7,
    entry: 0x200b,
};

// A table that maps itself writable, with the word of an L1 table in work.
const OF_ITSELF: Refusal = Refusal::OtherType {
    frame: 1,
    want: PageType::Writable,
    found: 0x0011_0000_0000_0000,
};

const WHOLE: [u64; 4] = [LIVE_L2, LIVE_L1, PAGE, NEVER_TAKEN];

// Stopped at entry 7 of the lower table.
const LEFT: [u64; 4] = [
    PARTIAL_L2 + ENTRY,
    PARTIAL_L1 + 7 * ENTRY,
    PAGE,
    NEVER_TAKEN,
];

// A call for one frame and level, by a gate that says yes at one ask; at none, where that is 0: lines of cells behind those of the tree, the frame, the level,
// and that ask; the answer; and the kind words of frames 0 to 3 and the first old word afterwards.
const CASES: [(&str, u64, u8, u64, Result<u32, Stop>, [u64; 4], u64); 10] = [
    ("", 0, 2, 0, Ok(0), WHOLE, 0),
    // a second entry leads to the lower table
    (
        "cell 0 9 1 0x1001\n",
        0,
        2,
        0,
        Ok(0),
        [LIVE_L2, LIVE_L1 + 1, PAGE, NEVER_TAKEN],
        0,
    ),
    (
        "cell 1 7 1 0x4003\n",
        0,
        2,
        0,
        Err(Stop::Refused(FOREIGN)),
        LEFT,
        1,
    ),
    (
        "cell 1 7 1 0x200b\n",
        0,
        2,
        0,
        Err(Stop::Refused(RESERVED)),
        LEFT,
        1,
    ),
    (
        "cell 1 0 1 0x1003\n",
        1,
        1,
        0,
        Err(Stop::Refused(OF_ITSELF)),
        [NEVER_TAKEN, PARTIAL_L1, NEVER_TAKEN, NEVER_TAKEN],
        2,
    ),
    (
        "",
        4,
        2,
        0,
        Err(Stop::Refused(FOREIGN)),
        [NEVER_TAKEN; 4],
        0,
    ),
    // behind entry 1 of the lower table
    (
        "",
        0,
        2,
        2,
        Err(Stop::Paused(Pause::Due)),
        [KEPT_L2 + ENTRY, PARTIAL_L1 + 2 * ENTRY, PAGE, NEVER_TAKEN],
        0,
    ),
    // behind entry 272, as the gate is not asked behind entries 256 to 271
    (
        "",
        3,
        4,
        257,
        Err(Stop::Paused(Pause::Due)),
        [NEVER_TAKEN, NEVER_TAKEN, NEVER_TAKEN, KEPT_L4 + 273 * ENTRY],
        0,
    ),
    // nor behind the last one
    (
        "",
        3,
        1,
        512,
        Ok(3),
        [NEVER_TAKEN, NEVER_TAKEN, NEVER_TAKEN, LIVE_L1],
        0,
    ),
    // the gate is asked 1022 times
    ("", 0, 2, 1023, Ok(0), WHOLE, 0),
];

// The board of the tree with these lines behind.
fn tree_with(rt: &(impl Abort + AllocGlobal), cells: &str) -> PlainBoard
    ensures { TakesFresh result }
{
    let text = format!(in rt.alloc(); "{TREE}{cells}end\n").expect(rt, "memory");
    board_at(rt, text.as_str())
}

fn yes_at(rt: &(impl Abort + AllocGlobal), ask: u64) -> Listed {
    Listed::new(vec![in rt.alloc(); ask].expect(rt, "memory"))
}

// A frame of the own domain is taken as a table; nothing where the first old word names a frame, or there is no such level.
fn take_table<P: Port>(
    port: &mut P,
    gate: &mut dyn Preempt,
    f: u64,
    owner: u16,
    level: u8,
) -> Option<Result<u32, Stop>>
    requires may { MayWork (P.value port.old) }
    requires idle { IsIdle (P.value port.old) }
    requires own { owner ≡ own_domain (P.value port.old) }
    ensures may { IfSome result (λ r. IfErr r (λ _. MayWork (P.value port.new))) }
    ensures idle { IfSome result (λ r. IfErr r (λ _. IsIdle (P.value port.new))) }
    ensures own { owner ≡ own_domain (P.value port.new) }
{
    if level == 0 || level > 4 || look_old(port, OldWord::First) != 0 {
        return None;
    }
    Some(acquire(port, gate, f, owner, level))
}

// One call by vCPU 0.
fn take_once<P: Port>(
    port: &mut P,
    gate: &mut dyn Preempt,
    f: u64,
    level: u8,
) -> Option<Result<u32, Stop>>
    requires { Rests (P.value port.old) }
{
    let vcpu = port.vcpu();
    let owner = port.layout().vcpu_domain.as_slice()[vcpu as usize];
    take_table(port, gate, f, owner, level)
}

// The answer of a first call, and of a second one where the first is no success.
fn take_twice<P: Port>(
    port: &mut P,
    gate: &mut dyn Preempt,
    again: &mut dyn Preempt,
    f: u64,
    level: u8,
) -> (Option<Result<u32, Stop>>, Option<Result<u32, Stop>>)
    requires { Rests (P.value port.old) }
{
    let vcpu = port.vcpu();
    let owner = port.layout().vcpu_domain.as_slice()[vcpu as usize];
    let first = take_table(port, gate, f, owner, level);
    let second = match first {
        Some(Err(_)) => take_table(port, again, f, owner, level),
        _ => None,
    };
    (first, second)
}

// The kind words of frames 0 to 3.
fn kinds_of<P: Port>(port: &mut P) -> Option<[u64; 4]> {
    if port.layout().frames < 4 {
        return None;
    }
    Some([
        look_kind(port, 0),
        look_kind(port, 1),
        look_kind(port, 2),
        look_kind(port, 3),
    ])
}

// The answer to one call, and what it leaves: the kind words, and the first old word.
fn taken(
    rt: &(impl Abort + AllocGlobal),
    cells: &str,
    f: u64,
    level: u8,
    ask: u64,
) -> (Option<Result<u32, Stop>>, Option<[u64; 4]>, u64) {
    let mut gate = yes_at(rt, ask);
    let mut board = tree_with(rt, cells);
    let mut port = at_work(rt, &mut board);
    let answer = take_once(&mut port, &mut gate, f, level);
    let kinds = kinds_of(&mut port);
    (answer, kinds, look_old(&mut port, OldWord::First))
}

#[test]
fn a_table_is_taken_with_what_its_entries_ask(rt: HostRuntime) {
    for (cells, frame, level, ask, answer, kinds, named) in CASES {
        let found = taken(&rt, cells, frame, level, ask);
        assert_eq!(rt; found, (Some(answer), Some(kinds), named), "{cells}{frame}");
    }
}

// The answers to two calls for the tree, of which the first is paused at an ask, and the kind words behind them.
fn taken_twice(
    rt: &(impl Abort + AllocGlobal),
    ask: u64,
) -> (
    Option<Result<u32, Stop>>,
    Option<Result<u32, Stop>>,
    Option<[u64; 4]>,
) {
    let mut gate = yes_at(rt, ask);
    let mut board = tree_with(rt, "");
    let mut port = at_work(rt, &mut board);
    let (first, second) = take_twice(&mut port, &mut gate, &mut Never::new(), 0, 2);
    (first, second, kinds_of(&mut port))
}

// Left within the lower table, which is asked for 511 times, behind it, and within the upper one up to its last ask.
#[test]
fn a_table_is_taken_on_where_it_was_left(rt: HostRuntime) {
    for ask in [1, 2, 511, 512, 513, 1022] {
        let paused = Some(Err(Stop::Paused(Pause::Due)));
        assert_eq!(rt;
            taken_twice(&rt, ask),
            (paused, Some(Ok(0)), Some(WHOLE)),
            "{ask}"
        );
    }
}
