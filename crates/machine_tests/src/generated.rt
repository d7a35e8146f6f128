//! Runs of the generated trace.
use crate::runs::{refuses, run_paced, sink_of, source_of, words_and, words_of};
use std::process::Abort;
use xp_io::MemorySource;
use xp_machine::Status;

// A source that fails where it is first read, and that holds no trace.
fn unreadable(rt: &(impl Abort + AllocGlobal)) -> MemorySource {
    source_of(rt, "no trace\n".as_bytes(), usize::MAX, 1)
}

fn sums_up(rt: &(impl Abort + AllocGlobal), operations: &str, text: &str) {
    let words = words_and(rt, "generate", operations);
    let turns = words_of(rt, "turns");
    let mut source = unreadable(rt);
    let mut sink = sink_of(rt, 7, 0);
    let answer = run_paced(rt, &words, &mut source, &mut sink);
    assert!(rt; answer == Status::Done, "{operations}");
    assert!(rt; sink.bytes() == text.as_bytes(), "{operations}");

    // The read that fails is still to come.
    assert!(rt; run_paced(rt, &turns, &mut source, &mut sink) == Status::ReadFault);
}

// All six operations of a round are done, and what is given back is taken again. The first operation sets a machine-to-physical word; behind
// the fifth a frame more is free.
#[test]
fn a_round_is_done_whole_and_cut_short(rt: HostRuntime) {
    for (operations, text) in [
        ("6", "generated 6 ok 6 refused 0 pending 0\nfree 64\n"),
        ("1", "generated 1 ok 1 refused 0 pending 0\nfree 64\n"),
        ("5", "generated 5 ok 5 refused 0 pending 0\nfree 65\n"),
    ] {
        sums_up(&rt, operations, text);
    }
}

// There are 32 tables to pin. From the thirty-third round on the pin is refused, since the table is pinned already: 68 times in 100 rounds.
#[test]
fn a_table_is_pinned_once(rt: HostRuntime) {
    for (operations, text) in [
        ("192", "generated 192 ok 192 refused 0 pending 0\nfree 64\n"),
        ("194", "generated 194 ok 193 refused 1 pending 0\nfree 64\n"),
        (
            "600",
            "generated 600 ok 532 refused 68 pending 0\nfree 64\n",
        ),
    ] {
        sums_up(&rt, operations, text);
    }
}

#[test]
fn a_failing_write_leaves_a_front_of_the_summary(rt: HostRuntime) {
    let words = words_of(&rt, "generate 6");
    let mut source = unreadable(&rt);
    let mut sink = sink_of(&rt, 7, 3);
    let answer = run_paced(&rt, &words, &mut source, &mut sink);
    assert!(rt; answer == Status::WriteFault);
    assert!(rt; sink.bytes() == "generated 6 ok".as_bytes());
}

const OTHER_NUMBERS: [(&str, &str); 6] = [
    ("generate", ""),
    ("generate", "0"),
    ("generate", "060"),
    ("generate", "60001"),
    ("generate", "+6"),
    ("generate", "6 "),
];

#[test]
fn other_numbers_are_refused(rt: HostRuntime) {
    let mut source = unreadable(&rt);
    let mut sink = sink_of(&rt, 7, 0);
    refuses(&rt, &OTHER_NUMBERS, &mut source, &mut sink);
}
