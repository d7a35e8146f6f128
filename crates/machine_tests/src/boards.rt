//! The plain board, and the calls over any port, each through its bound.
ghost use Rattle.std.specs.Prelude.{◌≡◌, ◌<◌, ◌^◌, IfOk, IfSome, length};
ghost use Rattle.trace_text.specs.WellFormed.{IsWellFormed};
ghost use Rattle.xp_words.specs.Places.{sizes_of};
ghost use Rattle.step_maker.specs.Holds.{MayWork, Rests};
ghost use Rattle.shared_board.specs.Board.{port_value};
ghost use Rattle.xp_machine.specs.Ready.{TakesFresh};

use crate::counting::Counts;
use flush_words::{begin_turn, end_answer, look_run};
use frame_words::{Open, get_ref, look_refs, put_ref, raise_refs};
use kind_words::look_kind;
use m2p_map::set_m2p;
use machine_build::opening;
use opening_rule::opening_words_are_sound;
use shared_board::{PlainBoard, PlainPort, WholeBoard};
use std::alloc::{AllocError, Global};
use std::process::Abort;
use step_maker::look_clock;
use trace_text::{ScriptList, Trace, read_trace};
use xp_board::{Item, Port, Step};
use xp_machine::{Cpu, Runner};
use xp_preempt::Never;
use xp_words::{Layout, RefWord, Refusal, Script, Stop};

// Frame 0 is domain 0's, frame 1 domain 1's, and frame 2 is free.
pub(crate) const TWO_DOMAINS: &str =
    "xen-pv-trace 1\nframes 3\nlimit 2\nclock 5\ndomain 1\ndomain 1\nvcpu 0\nvcpu 1\nown 0 0 1\nown 1 1 1\nop 1 mmu 0x7ff0 0x1001 7\nend\n";

// The board with which a trace opens, and the scripts of its vCPUs.
fn board_of(alloc: Global, trace: Trace) -> Result<(PlainBoard, ScriptList), AllocError>
    requires { IsWellFormed trace }
    ensures fresh { IfOk result (λ b. TakesFresh b.0) }
    ensures hands { IfOk result (λ b. length b.0.story.hands ≡ (sizes_of b.0.machine).vcpus) }
{
    opening_words_are_sound();
    let words = opening(alloc, &trace)?;
    let Trace {
        version: _,
        layout,
        clock: _,
        owned: _,
        cells: _,
        scripts,
        turns: _,
    } = trace;
    let board = PlainBoard::make(alloc, layout, words)?;
    Ok((board, scripts))
}

// The same of its text, with the script of the last vCPU.
pub(crate) fn opened(alloc: Global, text: &str) -> Option<(PlainBoard, Script)>
    ensures fresh { IfSome result (λ b. TakesFresh b.0) }
    ensures hands { IfSome result (λ b. length b.0.story.hands ≡ (sizes_of b.0.machine).vcpus) }
{
    match read_trace(alloc, text.as_bytes()) {
        Err(_) => None,
        Ok(trace) => match board_of(alloc, trace) {
            Err(_) => None,
            Ok((board, scripts)) => match scripts.into_items().pop() {
                None => None,
                Some(script) => Some((board, script)),
            },
        },
    }
}

// The board alone.
pub(crate) fn board_at(rt: &(impl Abort + AllocGlobal), text: &str) -> PlainBoard
    ensures { TakesFresh result }
{
    let (board, _) = opened(rt.alloc(), text).expect(rt, "a board");
    board
}

// The port of vCPU 0, which runs and has nothing in hand.
pub(crate) fn at_work<'a>(
    rt: &impl Abort,
    board: &'a mut PlainBoard,
) -> PlainPort<&'a mut PlainBoard>
    requires { TakesFresh board.old }
    ensures rests { Rests (port_value result.board.now result.vcpu) }
{
    assert!(rt; board.layout().vcpus() != 0);
    let mut port = PlainPort::new(board, 0);
    assert!(rt; look_run(&mut port) == 0);
    port
}

// Takes a reference to a frame of domain 0, and keeps it or gives it back.
fn take<P: Port>(port: &mut P, f: u64, keep: bool) -> Result<u32, Stop>
    requires { MayWork (P.value port.old) }
    ensures { MayWork (P.value port.new) }
{
    let taken = get_ref(port, f, 0);
    if let Ok(frame) = taken {
        if !keep {
            put_ref(port, frame);
        }
    }
    taken
}

// The reference word of a frame.
fn refs_of<P: Port>(port: &mut P, frame: u32) -> Option<u64>
    requires { MayWork (P.value port.old) }
    ensures { MayWork (P.value port.new) }
{
    if frame >= port.layout().frames {
        return None;
    }
    Some(look_refs(port, frame))
}

// An exchange of a word that was found before; nothing where that word says that there is no room.
fn exchange<P: Port>(port: &mut P, frame: u32, expected: u64) -> Option<Result<(), u64>>
    requires { MayWork (P.value port.old) }
    ensures { MayWork (P.value port.new) }
{
    let layout = port.layout();
    if frame >= layout.frames {
        return None;
    }
    let Some(
        RefWord::Owned {
            owner,
            allocated,
            count,
        },
    ) = RefWord::read(expected)
    else {
        return None;
    };
    if count == 0 || count >= layout.limit || u32::from(owner) >= layout.domains() {
        return None;
    }
    let from = Open {
        owner,
        allocated,
        count,
    };
    Some(raise_refs(port, frame, from, expected))
}

// The own ask as a turn of vCPU 0 begins, the clock before and as its answer ends, and a frame's kind word.
fn looks(board: &mut PlainBoard, frame: u32) -> Option<(u64, u64, u64, u64)> {
    if board.layout().vcpus() == 0 || frame >= board.layout().frames {
        return None;
    }
    let mut port = PlainPort::new(board, 0);
    let asked = begin_turn(&mut port);
    let clock = look_clock(&mut port);
    let kind = look_kind(&mut port, frame);
    let end = end_answer(&mut port, 0);
    Some((asked, clock, end, kind))
}

// The reference word of a frame as vCPU 0 finds it.
fn refs_at(board: &mut PlainBoard, frame: u32) -> Option<u64> {
    if board.layout().vcpus() == 0 || frame >= board.layout().frames {
        return None;
    }
    let mut port = PlainPort::new(board, 0);
    Some(look_refs(&mut port, frame))
}

// A port that counts the steps made on another one.
#[derive(Drop)]
struct Counting<P> {
    port: P,
    counts: Counts,
}

impl<P: Port> Port for Counting<P> {
    ghost value = { λ c. P.value c.port };

    fn layout(&self) -> &Layout {
        self.port.layout()
    }

    fn vcpu(&self) -> u32 {
        self.port.vcpu()
    }

    fn cached(&self, user: bool, page: u64) -> Option<Item> {
        self.port.cached(user, page)
    }

    fn step(&mut self, step: Step) -> u64 {
        self.counts.count(&step.act);
        self.port.step(step)
    }
}

// The steps that the first turn of a vCPU makes.
pub(crate) fn steps_of(
    alloc: Global,
    board: &mut PlainBoard,
    vcpu: u32,
    script: Script,
) -> Result<Counts, AllocError>
    requires vcpu { vcpu < (sizes_of board.old.machine).vcpus }
    requires fresh { TakesFresh board.old }
    requires short { length script < 2 ^ 32 }
{
    let cpu = Cpu::new(alloc, board.layout(), vcpu, script)?;
    let mut runner = Runner::new(cpu, Box::new(alloc, Never::new())?);
    let port = PlainPort::new(board, vcpu);
    let mut counting = Counting {
        port,
        counts: Counts::none(),
    };
    runner.turn(&mut counting);
    Ok(counting.counts)
}

// The turn begins with looks at the own domain's life, the own ask, flushed and run word, and then at both old words, as each element does;
// the frame's word is looked at, exchanged and lowered around the store; and the answer ends with a look at the clock.
#[test]
fn a_turn_of_an_update_makes_thirteen_steps(rt: HostRuntime) {
    let (mut board, script) = opened(rt.alloc(), TWO_DOMAINS).expect(&rt, "a board");
    assert!(rt; script.len() == 1);
    if script.len() == 1 && board.layout().vcpus() == 2 {
        let steps = steps_of(rt.alloc(), &mut board, 1, script).expect(&rt, "memory");
        assert!(rt; steps.loads == 10);
        assert!(rt; (steps.exchanges, steps.stores, steps.sums) == (1, 1, 1));
        assert!(rt; refs_at(&mut board, 1) == Some(0x8000_0001_8000_0001));
    }
}

#[test]
fn an_update_is_ok_on_an_own_frame_and_leaves_its_count(rt: HostRuntime) {
    let mut board = board_at(&rt, TWO_DOMAINS);
    let mut port = at_work(&rt, &mut board);
    let before = refs_of(&mut port, 0);
    assert!(rt; set_m2p(&mut port, 0, 0, 7) == Ok(()));
    assert!(rt; refs_of(&mut port, 0) == before);
    let m2p = if board.layout().frames > 0 {
        board.layout().m2p_place(0)
    } else {
        0
    };
    let words = board.into_words();
    assert!(rt; m2p < words.len());
    assert!(rt; words.get(m2p) == 7);
}

#[test]
fn references_are_refused_with_what_was_found(rt: HostRuntime) {
    let mut board = board_at(&rt, TWO_DOMAINS);
    let mut port = at_work(&rt, &mut board);
    assert!(rt; take(&mut port, 3, true) == Err(Stop::Refused(Refusal::NoFrame { frame: 3 })));
    assert!(rt;
        take(&mut port, 2, true) == Err(Stop::Refused(Refusal::WrongOwner { frame: 2, found: 0 }))
    );
    assert!(rt; take(&mut port, 0, false) == Ok(0));
    assert!(rt; take(&mut port, 0, true) == Ok(0));
    let two = 0x8000_0000_8000_0002;
    assert!(rt;
        take(&mut port, 0, true)
            == Err(Stop::Refused(Refusal::CountFull {
                frame: 0,
                found: two
            }))
    );
}

#[test]
fn an_exchange_of_an_old_word_is_lost(rt: HostRuntime) {
    let mut board = board_at(&rt, TWO_DOMAINS);
    let mut port = at_work(&rt, &mut board);
    let old = refs_of(&mut port, 0).expect(&rt, "a word");
    assert!(rt; take(&mut port, 0, true) == Ok(0));
    assert!(rt; exchange(&mut port, 0, old) == Some(Err(0x8000_0000_8000_0002)));
    assert!(rt; refs_of(&mut port, 0) == Some(0x8000_0000_8000_0002));
}

#[test]
fn looks_find_the_words_of_the_opening(rt: HostRuntime) {
    let mut board = board_at(&rt, TWO_DOMAINS);
    assert!(rt; looks(&mut board, 0) == Some((0, 5, 5, 0)));
}
