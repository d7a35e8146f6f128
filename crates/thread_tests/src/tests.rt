ghost use Rattle.std.specs.Prelude.{IfOk, IfSome, ◌≡◌, length};
ghost use Rattle.trace_text.specs.WellFormed.{IsWellFormed};
ghost use Rattle.xp_words.specs.Places.{sizes_of};
ghost use Rattle.thread_board.specs.Values.{AreOpened};

use crate::loads::{set_word, word_of};
use crate::two::{both, two_passes};
use machine_build::opening;
use opening_rule::opening_words_are_sound;
use std::alloc::{AllocError, Global};
use std::test::Fail;
use thread_board::{Pass, SharedBoard};
use trace_text::{Trace, read_trace};

// Frame 0 is domain 0's, and frame 1 domain 1's.
const TWO_DOMAINS: &str =
    "xen-pv-trace 1\nframes 3\nlimit 2\nclock 5\ndomain 1\ndomain 1\nvcpu 0\nvcpu 1\nown 0 0 1\nown 1 1 1\nop 1 mmu 0x7ff0 0x1001 7\nend\n";

// The board with which a trace opens, and its passes.
fn board_of(alloc: Global, trace: Trace) -> Result<(SharedBoard, Vec<Pass>), AllocError>
    requires { IsWellFormed trace }
    ensures { IfOk result (λ b. (length b.1.items ≡ (sizes_of b.0.machine).vcpus) × AreOpened b.0.table b.1.items) }
{
    opening_words_are_sound();
    let words = opening(alloc, &trace)?;
    let Trace {
        version: _,
        layout,
        clock: _,
        owned: _,
        cells: _,
        scripts: _,
        turns: _,
    } = trace;
    SharedBoard::make(alloc, layout, words)
}

pub(crate) fn opened(alloc: Global, text: &str) -> Option<(SharedBoard, Vec<Pass>)>
    ensures { IfSome result (λ b. (length b.1.items ≡ (sizes_of b.0.machine).vcpus) × AreOpened b.0.table b.1.items) }
{
    match read_trace(alloc, text.as_bytes()) {
        Err(_) => None,
        Ok(trace) => board_of(alloc, trace).ok(),
    }
}

#[test]
fn two_vcpus_side_by_side_each_set_their_word(rt: HostRuntime) -> Result<(), Fail> {
    let (board, passes) = opened(rt.alloc(), TWO_DOMAINS).expect(&rt, "a board");
    assert!(rt; board.layout().vcpus() == 2 && board.layout().frames == 3);
    let first = board.layout().m2p_place(0);
    let second = board.layout().m2p_place(1);
    let (one, two) = two_passes(&board, passes).expect(&rt, "two passes");
    let words = both(&rt, rt.alloc(), board, one, two)?;
    assert!(rt; first < words.len() && second < words.len());
    assert!(rt; words.get(first) == 7);
    assert!(rt; words.get(second) == 9);
    Ok(())
}

// What one vCPU stores the other finds at its next look, and the other way round.
#[test]
fn loads_on_one_thread_are_never_old(rt: HostRuntime) {
    let (board, passes) = opened(rt.alloc(), TWO_DOMAINS).expect(&rt, "a board");
    assert!(rt; board.layout().vcpus() == 2);
    let (mut one, mut two) = two_passes(&board, passes).expect(&rt, "two passes");
    set_word(&board, &mut one, 1, 1, 7);
    assert!(rt; word_of(&board, &mut two, 1) == Some(7));
    set_word(&board, &mut two, 1, 1, 9);
    assert!(rt; word_of(&board, &mut one, 1) == Some(9));
}
