//! Two vCPUs with one turn each in each round: one gives a table back while the other one takes it on. Without a rule each would undo
//! what the other one did, for ever. And what a vCPU waits for that nobody does.
use crate::runs::{has_lines, sink_of, source_of, words_of};
use std::process::Abort;
use xp_io::{MemorySink, MemorySource};
use xp_machine::{Status, run_serial};
use xp_preempt::{Never, Paced, Preempt};

// The command; whether the second vCPU's gate ever says yes; the trace without its turns, which says in a comment what it shows; the round with which all
// operations are answered and all tables given back; and lines of the report that come only then.
const RIVALS: [(&str, bool, &str, usize, &str); 4] = [
    (
        "turns --preempt 1",
        true,
        "# A table is refused, and settled by one vCPU while the other one pins it.\nxen-pv-trace 1\nframes 1\ndomain 1\nvcpu 0\nvcpu 0\nown 0 0 1\ncell 0 2 1 0x81\nop 0 ext 0 0 0\nop 1 ext 7 0 0 7 0 0 7 0 0 0 0 0\n",
        9,
        "vcpu 1 domain 0 base - user - old - -\nframe 0 owner 0 refs 1 alloc type L1 count 0 flags - at 0 m2p -\n",
    ),
    (
        "turns --preempt 1",
        true,
        "# The other one pins a table inside the one that is settled.\nxen-pv-trace 1\nframes 2\ndomain 2\nvcpu 0\nvcpu 0\nown 0 0 2\ncell 0 0 1 0x1001\ncell 1 2 1 0x81\nop 0 ext 1 0 0\nop 1 ext 7 0 0 7 0 0 7 0 0 0 1 0\n",
        9,
        "vcpu 1 domain 0 base - user - old - -\nframe 1 owner 0 refs 1 alloc type L1 count 0 flags - at 0 m2p -\n",
    ),
    (
        "turns --preempt 2",
        true,
        "# The gates say yes at each second ask.\nxen-pv-trace 1\nframes 1\ndomain 1\nvcpu 0\nvcpu 0\nown 0 0 1\ncell 0 4 1 0x81\nop 0 ext 0 0 0\nop 1 ext 7 0 0 7 0 0 7 0 0 7 0 0 7 0 0 7 0 0 0 0 0\n",
        9,
        "vcpu 1 domain 0 base - user - old - -\nframe 0 owner 0 refs 1 alloc type L1 count 0 flags - at 0 m2p -\n",
    ),
    (
        "turns --preempt 1",
        false,
        "# The other one's gate never says yes, but it waits for a flush, anew each time that its page is given back.\nxen-pv-trace 1\nframes 2\ndomain 2\nvcpu 0\nvcpu 0\nown 0 0 2\ncell 0 511 1 0x1003\nop 0 read k 0x0\nop 0 ext 4 0 0\nop 1 ext 0 0 0\nop 1 ext 0 1 0 4 1 0\nop 1 ext 0 0 0\n",
        513,
        "op 3 ok done 1 value 0x0\nframe 0 owner 0 refs 2 alloc type L1 count 1 flags pv at 0 m2p -\n",
    ),
];

// What a vCPU waits for: the trace without its turns, the turns of a round, the rounds, and lines of the report behind them.
const WAITING: [(&str, &str, usize, &str); 4] = [
    (
        "# At the clock's last value but one both wait for each other's flush: the clock comes to its last value, past which nobody can flush.\nxen-pv-trace 1\nframes 1\nclock 68719476734\ndomain 1\nvcpu 0\nvcpu 0\nop 0 ext 8 0 2\nop 1 ext 8 0 1\n",
        "turn 0 1\nturn 1 1\n",
        500,
        "pending 1\n",
    ),
    (
        "# With one value more they do not.\nxen-pv-trace 1\nframes 1\nclock 68719476733\ndomain 1\nvcpu 0\nvcpu 0\nop 0 ext 8 0 2\nop 1 ext 8 0 1\n",
        "turn 0 1\nturn 1 1\n",
        3,
        "op 1 ok done 1 value 0x0\n",
    ),
    (
        "# A vCPU that has no turn makes no flush.\nxen-pv-trace 1\nframes 1\ndomain 1\nvcpu 0\nvcpu 0\nop 0 ext 8 0 2\n",
        "turn 0 1\n",
        500,
        "pending 1\n",
    ),
    (
        "# With a turn in each round it does.\nxen-pv-trace 1\nframes 1\ndomain 1\nvcpu 0\nvcpu 0\nop 0 ext 8 0 2\n",
        "turn 0 1\nturn 1 1\n",
        3,
        "op 1 ok done 1 value 0x0\n",
    ),
];

// The trace, with so many rounds of these turns.
fn trace_in(rt: &(impl Abort + AllocGlobal), opening: &str, turns: &str, rounds: usize) -> String {
    let mut trace = String::from_str(rt.alloc(), opening).expect(rt, "memory");
    for _ in 0..rounds {
        trace.push_str(turns).expect(rt, "memory");
    }
    trace.push_str("end\n").expect(rt, "memory");
    trace
}

// A run whose second vCPU's gate may be one that never says yes.
fn run_rivals(
    rt: &(impl Abort + AllocGlobal),
    words: &[String],
    source: &mut MemorySource,
    sink: &mut MemorySink,
    asks: bool,
) -> Status {
    let mut gates: Vec<Box<dyn Preempt + Send>> = Vec::new(rt.alloc());
    for vcpu in 0..16 {
        if vcpu == 1 && !asks {
            let silent = Box::new(rt.alloc(), Never::new()).expect(rt, "memory");
            gates.push(silent).expect(rt, "memory");
        } else {
            let paced = Box::new(rt.alloc(), Paced::new()).expect(rt, "memory");
            gates.push(paced).expect(rt, "memory");
        }
    }
    assert!(rt; gates.len() >= 16);
    run_serial(rt.alloc(), words, source, sink, gates)
}

// Its report.
fn report_by(rt: &(impl Abort + AllocGlobal), command: &str, trace: &str, asks: bool) -> Vec<u8> {
    let words = words_of(rt, command);
    let mut source = source_of(rt, trace.as_bytes(), usize::MAX, 0);
    let mut sink = sink_of(rt, usize::MAX, 0);
    let answer = run_rivals(rt, &words, &mut source, &mut sink, asks);
    assert!(rt; answer == Status::Done, "{trace}");
    sink.bytes().to_vec(rt.alloc()).expect(rt, "memory")
}

// Whether the report of so many rounds, of a turn for each vCPU, has these lines.
fn comes_to(
    rt: &(impl Abort + AllocGlobal),
    command: &str,
    asks: bool,
    opening: &str,
    rounds: usize,
    lines: &str,
) -> bool {
    let trace = trace_in(rt, opening, "turn 0 1\nturn 1 1\n", rounds);
    let report = report_by(rt, command, trace.as_str(), asks);
    has_lines(rt, &report, lines)
}

#[test]
fn vcpus_at_one_table_come_to_their_end(rt: HostRuntime) {
    for (command, asks, opening, rounds, lines) in RIVALS {
        let early = rounds.saturating_sub(1);
        assert!(rt;
            !comes_to(&rt, command, asks, opening, early, lines),
            "{opening}"
        );
        assert!(rt;
            comes_to(&rt, command, asks, opening, rounds, lines),
            "{opening}"
        );
    }
}

#[test]
fn a_vcpu_waits_for_ever_where_nobody_flushes(rt: HostRuntime) {
    for (opening, turns, rounds, lines) in WAITING {
        let trace = trace_in(&rt, opening, turns, rounds);
        let report = report_by(&rt, "turns --preempt 1", trace.as_str(), true);
        assert!(rt; has_lines(&rt, &report, lines), "{opening}");
    }
}
