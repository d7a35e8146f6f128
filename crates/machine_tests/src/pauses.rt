//! Scripts of a vCPU alone under gates that pause them, at any one ask and at each: every report is the one without pauses.
use crate::runs::{report_of, sink_of, source_of, words_of};
use std::process::Abort;
use trace_gen::generate;
use trace_text::write_trace;
use xp_io::{MemorySink, MemorySource};
use xp_machine::{Status, run_serial};
use xp_preempt::{Listed, Never, Preempt};

// A trace up to its turns, which says in a comment what it shows; how many of these do all where the gate never says yes, and how many are enough where it
// says yes at each ask; and how often it is asked.
const SCRIPTS: [(&str, u32, u32, u64); 5] = [
    (
        "# A tree of four tables is pinned.\nxen-pv-trace 1\nframes 16\ndomain 16\nvcpu 0\nown 0 0 8\ncell 1 0 1 0x2003\ncell 2 0 1 0x3003\ncell 3 0 1 0x4003\ncell 4 0 512 0x5001\nop 0 ext 3 1 0\n",
        1,
        2029,
        2028,
    ),
    (
        "# A table is pinned, and another refused for a reserved bit.\nxen-pv-trace 1\nframes 16\ndomain 16\nvcpu 0\nown 0 0 8\ncell 3 7 1 0x80\ncell 4 7 1 0x5081\nop 0 ext 1 3 0\nop 0 ext 1 4 0\n",
        3,
        2000,
        524,
    ),
    (
        "# A table is pinned.\nxen-pv-trace 1\nframes 16\ndomain 16\nvcpu 0\nown 0 0 8\ncell 5 0 512 0x6001\nop 0 ext 0 5 0\n",
        1,
        512,
        511,
    ),
    (
        "# Entries in front of the hypervisor's slots, in them and behind them.\nxen-pv-trace 1\nframes 16\ndomain 16\nvcpu 0\nown 0 0 8\nop 0 ext 3 1 0\nop 0 mmu 0x7ff0 0x17f8 0x2003\nop 0 mmu 0x7ff0 0x1800 0x2003\nop 0 mmu 0x7ff0 0x1878 0x2003\nop 0 mmu 0x7ff0 0x1880 0x2003\n",
        5,
        1011,
        1006,
    ),
    (
        "# A multicall of an update and two pins.\nxen-pv-trace 1\nframes 16\ndomain 16\nvcpu 0\nown 0 0 8\ncell 5 0 512 0x6001\nop 0 multi mmu 0x7ff0 0x1 7 ; ext 0 5 0 ; ext 0 5 0\n",
        1,
        2000,
        511,
    ),
];

fn in_turns(rt: &(impl Abort + AllocGlobal), script: &str, turns: u32) -> String {
    format!(in rt.alloc(); "{script}turn 0 {turns}\nend\n").expect(rt, "memory")
}

// A run by a gate that says yes at one ask.
fn run_paused(
    rt: &(impl Abort + AllocGlobal),
    words: &[String],
    source: &mut MemorySource,
    sink: &mut MemorySink,
    yes_at: u64,
) -> Status {
    let gate = Listed::new(vec![in rt.alloc(); yes_at].expect(rt, "memory"));
    let mut gates: Vec<Box<dyn Preempt + Send>> = Vec::new(rt.alloc());
    gates
        .push(Box::new(rt.alloc(), gate).expect(rt, "memory"))
        .expect(rt, "memory");
    for _ in 1..16 {
        let silent = Box::new(rt.alloc(), Never::new()).expect(rt, "memory");
        gates.push(silent).expect(rt, "memory");
    }
    assert!(rt; gates.len() >= 16);
    run_serial(rt.alloc(), words, source, sink, gates)
}

// Whether its report is this one.
fn reports(rt: &(impl Abort + AllocGlobal), trace: &str, yes_at: u64, report: &[u8]) -> bool {
    let words = words_of(rt, "turns");
    let mut source = source_of(rt, trace.as_bytes(), usize::MAX, 0);
    let mut sink = sink_of(rt, usize::MAX, 0);
    let answer = run_paused(rt, &words, &mut source, &mut sink, yes_at);
    answer == Status::Done && sink.bytes() == report
}

// A pause at any one of so many asks is not seen, from the first on and so far apart. One pause takes one turn more.
fn sees_no_pause(
    rt: &(impl Abort + AllocGlobal),
    script: &str,
    turns: u32,
    asks: u64,
    apart: u64,
    report: &[u8],
) {
    let trace = in_turns(rt, script, turns.saturating_add(1));
    for number in 0..asks {
        let ask = number.saturating_mul(apart).saturating_add(1);
        assert!(rt;
            reports(rt, trace.as_str(), ask, report),
            "{script}at {ask}"
        );
    }
}

// Without that turn a pause at the last ask leaves something undone, and there is no ask behind that.
fn asks_so_often(
    rt: &(impl Abort + AllocGlobal),
    script: &str,
    turns: u32,
    asks: u64,
    report: &[u8],
) {
    let trace = in_turns(rt, script, turns);
    assert!(rt; !reports(rt, trace.as_str(), asks, report), "{script}");
    assert!(rt;
        reports(rt, trace.as_str(), asks.saturating_add(1), report),
        "{script}"
    );
}

// Its report, with a pause at each ask and with none.
fn report_at_each(rt: &(impl Abort + AllocGlobal), script: &str, turns: u32, most: u32) -> Vec<u8> {
    let once = in_turns(rt, script, turns);
    let paced = in_turns(rt, script, most);
    let report = report_of(rt, "turns", once.as_bytes());
    assert!(rt;
        report_of(rt, "turns --preempt 1", paced.as_bytes()) == report,
        "{script}"
    );
    report
}

#[test]
fn no_pause_is_seen_in_the_report(rt: HostRuntime) {
    for (script, turns, most, asks) in SCRIPTS {
        let report = report_at_each(&rt, script, turns, most);
        sees_no_pause(&rt, script, turns, asks, 1, &report);
        asks_so_often(&rt, script, turns, asks, &report);
    }
}

// The text of the generated script of sixty operations.
fn generated(rt: &(impl Abort + AllocGlobal)) -> Vec<u8> {
    let trace = generate(rt.alloc(), 60).expect(rt, "memory");
    write_trace(rt.alloc(), &trace).expect(rt, "memory")
}

// A run of it takes some four times as long as one of those above, and 5,110 of them longer than a test has. So the pauses are 25 asks apart.
#[test]
fn no_pause_is_seen_in_the_report_of_a_generated_script(rt: HostRuntime) {
    let bytes = generated(&rt);
    let text = str::from_utf8(&bytes).expect(&rt, "a text");
    let (script, _) = text.split_once("turn ").expect(&rt, "turns");
    let report = report_at_each(&rt, script, 60, 6000);
    sees_no_pause(&rt, script, 60, 205, 25, &report);
    asks_so_often(&rt, script, 60, 5110, &report);
}
