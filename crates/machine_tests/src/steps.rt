//! Calls for single steps that no turn of today makes, each through its bound.

ghost use Rattle.std.specs.Prelude.{◌≡◌, ◌≢◌, ◌<◌, length, Some, None};
ghost use Rattle.xp_words.specs.Places.{sizes_of};
ghost use Rattle.xp_board.specs.Readings.{domain_of};
ghost use Rattle.step_maker.specs.Holds.{Holds, MayWork, Rests};
ghost use Rattle.step_maker.specs.Moves.{Came};
ghost use Rattle.xp_machine.specs.Ready.{Idles};
ghost use Rattle.xp_machine.specs.Ready.{TakesFresh};

use crate::boards::{TWO_DOMAINS, at_work, board_at, opened, steps_of};
use flush_words::{ask, look_flushed, look_life, look_privileges, look_run, look_run_of};
use frame_words::{get_ref, look_cell};
use kind_words::{count_type, look_kind};
use shared_board::{PlainBoard, PlainPort, WholeBoard};
use std::process::Abort;
use step_maker::look_clock;
use writable_pages::take_page;
use xp_board::Port;
use xp_words::KindWord;

// Frame 0 is domain 0's, with a cell that is not 0, and frame 1 is domain 1's. Domain 0 has privilege over domain 1.
const PRIVILEGED: &str =
    "xen-pv-trace 1\nframes 3\nlimit 3\nclock 5\ndomain 1\ndomain 1\npriv 0 1\nvcpu 0\nvcpu 1\nown 0 0 1\nown 1 1 1\ncell 0 3 1 0x77\nend\n";

// A cell of a frame as vCPU 0 finds it.
fn cell_of(board: &mut PlainBoard, frame: u32, index: u16) -> Option<u64> {
    if board.layout().vcpus() == 0 || frame >= board.layout().frames || index >= 512 {
        return None;
    }
    let mut port = PlainPort::new(board, 0);
    Some(look_cell(&mut port, frame, index))
}

// The life word of a domain and its privileges.
fn life_and_privileges(board: &mut PlainBoard, domain: u16) -> Option<(u64, u64)> {
    if board.layout().vcpus() == 0 || u32::from(domain) >= board.layout().domains() {
        return None;
    }
    let mut port = PlainPort::new(board, 0);
    let life = look_life(&mut port, domain);
    let privileges = look_privileges(&mut port, domain);
    Some((life, privileges))
}

// The run word of another vCPU than 0.
fn run_of(board: &mut PlainBoard, vcpu: u32) -> Option<u64> {
    if vcpu == 0 || vcpu >= board.layout().vcpus() {
        return None;
    }
    let mut port = PlainPort::new(board, 0);
    Some(look_run_of(&mut port, vcpu))
}

// Whether vCPU 0 has a translation of that page.
fn has_cached(board: &mut PlainBoard, page: u64) -> Option<bool> {
    if board.layout().vcpus() == 0 {
        return None;
    }
    let port = PlainPort::new(board, 0);
    Some(port.cached(false, page).is_some() || port.cached(true, page).is_some())
}

#[test]
fn a_load_answers_the_word_that_stands_there(rt: HostRuntime) {
    let mut board = board_at(&rt, PRIVILEGED);
    assert!(rt; cell_of(&mut board, 0, 3) == Some(0x77));
    assert!(rt; cell_of(&mut board, 0, 4) == Some(0));
    assert!(rt; life_and_privileges(&mut board, 0) == Some((0, 0x2_0002)));
    assert!(rt; life_and_privileges(&mut board, 1) == Some((0, 0)));
    assert!(rt; run_of(&mut board, 1) == Some(0));
}

#[test]
fn a_vcpu_opens_without_translations(rt: HostRuntime) {
    let mut board = board_at(&rt, PRIVILEGED);
    assert!(rt; has_cached(&mut board, 0) == Some(false));
}

// Another vCPU is asked to flush past the clock value that is found. Answers that value.
fn ask_another<P: Port>(rt: &impl Abort, port: &mut P, vcpu: u32) -> u64
    requires vcpu { vcpu < length (P.value port.old).post.machine.vcpu_domain }
    requires other { vcpu ≢ (P.value port.old).post.vcpu }
    requires idles { Idles (P.value port.old) }
    ensures came { Came (P.value port.old) (P.value port.new) }
    ensures hand { Holds (P.value port.old) (P.value port.new) (record (P.value port.old).holdings { run = Some 0 }) }
{
    let own = look_run(port);
    assert!(rt; own == 0);
    let clock = look_clock(port);
    let run = look_run_of(port, vcpu);
    assert!(rt; run == 0);
    let flushed = look_flushed(port, vcpu);
    assert!(rt; flushed <= clock);
    ask(port, vcpu, clock);
    clock
}

// vCPU 0 of a board asks another one, which may take its first turn then.
fn ask_by_first(rt: &impl Abort, board: PlainBoard, vcpu: u32) -> (PlainBoard, u64)
    requires fresh { TakesFresh board }
    requires hands { length board.story.hands ≡ (sizes_of board.machine).vcpus }
    ensures { TakesFresh result.0 }
{
    assert!(rt; vcpu != 0);
    assert!(rt; vcpu < board.layout().vcpus());
    let mut port = PlainPort::new(board, 0);
    let asked = ask_another(rt, &mut port, vcpu);
    (port.into_board(), asked)
}

// The clock, and to which of its values a vCPU was asked to flush and is flushed.
fn flushes_of(board: PlainBoard, vcpu: u32) -> Option<(u64, u64, u64)> {
    if vcpu >= board.layout().vcpus() {
        return None;
    }
    let asked = board.layout().vcpu_place(vcpu, 4);
    let flushed = board.layout().vcpu_place(vcpu, 5);
    let words = board.into_words();
    if asked < words.len() && flushed < words.len() {
        Some((words.get(0), words.get(asked), words.get(flushed)))
    } else {
        None
    }
}

// A load, an exchange and a store more than without the ask: the clock goes up, and the vCPU is flushed to it.
#[test]
fn a_vcpu_that_was_asked_flushes_as_its_turn_begins(rt: HostRuntime) {
    let (board, script) = opened(rt.alloc(), TWO_DOMAINS).expect(&rt, "a board");
    assert!(rt; script.len() == 1);
    let (mut board, asked) = ask_by_first(&rt, board, 1);
    assert!(rt; asked == 5);
    if script.len() == 1 && board.layout().vcpus() == 2 {
        let steps = steps_of(rt.alloc(), &mut board, 1, script).expect(&rt, "memory");
        assert!(rt; steps.loads == 11);
        assert!(rt; (steps.exchanges, steps.stores, steps.sums) == (2, 2, 1));
    }
    assert!(rt; flushes_of(board, 1) == Some((6, 5, 6)));
}

// How many type counts a frame has that is taken as writable, and counted once more.
fn count_twice<P: Port>(port: &mut P, f: u64, domain: u16) -> Option<u64>
    requires rests { Rests (P.value port.old) }
    requires own { domain ≡ domain_of (P.value port.old).post.machine (P.value port.old).post.vcpu }
{
    let Ok(frame) = get_ref(port, f, domain) else {
        return None;
    };
    if take_page(port, frame, domain).is_err() {
        return None;
    }
    count_more(port, f, domain)
}

// How many type counts a live frame has with one more.
fn count_more<P: Port>(port: &mut P, f: u64, domain: u16) -> Option<u64>
    requires may { MayWork (P.value port.old) }
{
    let Ok(again) = get_ref(port, f, domain) else {
        return None;
    };
    let word = look_kind(port, again);
    let Some(kind) = KindWord::read(word) else {
        return None;
    };
    if !kind.validated || kind.number == 0 || kind.number >= u64::from(port.layout().limit) {
        return None;
    }
    if count_type(port, again, kind, word).is_err() {
        return None;
    }
    let Some(counted) = KindWord::read(look_kind(port, again)) else {
        return None;
    };
    Some(counted.number)
}

#[test]
fn a_writable_frame_has_a_type_count_for_each_holder(rt: HostRuntime) {
    let mut board = board_at(&rt, PRIVILEGED);
    let mut port = at_work(&rt, &mut board);
    let vcpu = port.vcpu();
    let domain = port.layout().vcpu_domain.as_slice()[vcpu as usize];
    assert!(rt; count_twice(&mut port, 0, domain) == Some(2));
}
