//! Runs from a trace to what they write, and the helpers by which all tests run one.
ghost use Rattle.std.specs.Prelude.{◌≡◌};
ghost use Rattle.xp_io.specs.Causes.{Rose};

use std::process::Abort;
use std::test::Fail;
use trace_text::{read_trace, write_trace};
use xp_io::{HonestSink, HonestSource, MemorySink, MemorySource, Sink, Source};
use xp_machine::{Status, run_serial};
use xp_preempt::{Paced, Preempt};

pub const FIRST_UPDATE: &str =
    "xen-pv-trace 1\nframes 1\ndomain 1\nvcpu 0\nown 0 0 1\nop 0 mmu 0x7ff0 0x1 7\nturn 0 2\nend\n";

const FIRST_REPORT: &str =
    "vcpu 0 domain 0 base - user - old - -\nop 1 ok done 1 value 0x0\ndomain 0 live pages 1\nframe 0 owner 0 refs 1 alloc type none count 0 flags - at 0 m2p 0x7\nfree 0\nend\n";

// The words of a command; of the empty one none.
pub fn words_of(rt: &(impl Abort + AllocGlobal), command: &str) -> Vec<String> {
    let mut words = Vec::new(rt.alloc());
    for word in command.split_whitespace() {
        let word = String::from_str(rt.alloc(), word).expect(rt, "memory");
        words.push(word).expect(rt, "memory");
    }
    words
}

// And one more, which may be any text.
pub fn words_and(rt: &(impl Abort + AllocGlobal), command: &str, last: &str) -> Vec<String> {
    let mut words = words_of(rt, command);
    let last = String::from_str(rt.alloc(), last).expect(rt, "memory");
    words.push(last).expect(rt, "memory");
    words
}

// A source of these bytes, that gives at most so many at a read, and of which one read fails; none, where that is 0.
pub fn source_of(
    rt: &(impl Abort + AllocGlobal),
    bytes: &[u8],
    most: usize,
    fails: u64,
) -> MemorySource {
    let most = most.max(1);
    let fails = vec![in rt.alloc(); fails].expect(rt, "memory");
    let bytes = bytes.to_vec(rt.alloc()).expect(rt, "memory");
    MemorySource::in_pieces(bytes, most, fails)
}

// A sink that takes at most so many bytes at a write, and of which one write fails; none, where that is 0.
pub fn sink_of(rt: &(impl Abort + AllocGlobal), most: usize, fails: u64) -> MemorySink {
    let most = most.max(1);
    let fails = vec![in rt.alloc(); fails].expect(rt, "memory");
    MemorySink::new(rt.alloc(), 32768, most, fails).expect(rt, "memory")
}

// A run with gates that have a pace.
pub fn run_paced<S: Source, K: Sink>(
    rt: &(impl Abort + AllocGlobal),
    words: &[String],
    source: &mut S,
    sink: &mut K,
) -> Status
    ensures read { result ≡ Status.ReadFault → Rose (S.faults source.old) (S.faults source.new) }
    ensures write { result ≡ Status.WriteFault → Rose (K.faults sink.old) (K.faults sink.new) }
{
    let mut gates: Vec<Box<dyn Preempt + Send>> = Vec::new(rt.alloc());
    for _ in 0..16 {
        let gate = Box::new(rt.alloc(), Paced::new()).expect(rt, "memory");
        gates.push(gate).expect(rt, "memory");
    }
    assert!(rt; gates.len() >= 16);
    run_serial(rt.alloc(), words, source, sink, gates)
}

// How a run ends, and what it writes: with a source that gives at most so many bytes at a read, and a sink that takes as many at a write.
pub fn ran(
    rt: &(impl Abort + AllocGlobal),
    command: &str,
    bytes: &[u8],
    most: usize,
) -> (Status, Vec<u8>) {
    let words = words_of(rt, command);
    let mut source = source_of(rt, bytes, most, 0);
    let mut sink = sink_of(rt, most, 0);
    let status = run_paced(rt, &words, &mut source, &mut sink);
    let written = sink.bytes().to_vec(rt.alloc()).expect(rt, "memory");
    (status, written)
}

// It ends so, and writes this.
pub fn answers(
    rt: &(impl Abort + AllocGlobal),
    command: &str,
    trace: &str,
    most: usize,
    status: Status,
    text: &str,
) {
    let (ended, written) = ran(rt, command, trace.as_bytes(), most);
    assert!(rt; ended == status, "{trace}");
    assert!(rt; written.as_slice() == text.as_bytes(), "{trace}");
}

// What it writes, where it is done.
pub fn report_of(rt: &(impl Abort + AllocGlobal), command: &str, bytes: &[u8]) -> Vec<u8> {
    let (status, report) = ran(rt, command, bytes, usize::MAX);
    assert!(rt; status == Status::Done, "{command}");
    report
}

// Each of these commands with one more word is refused, and nothing is written.
pub fn refuses(
    rt: &(impl Abort + AllocGlobal),
    commands: &[(&str, &str)],
    source: &mut MemorySource,
    sink: &mut MemorySink,
) {
    for (front, last) in commands {
        let words = words_and(rt, front, last);
        let status = run_paced(rt, &words, source, sink);
        assert!(rt; status == Status::BadWords, "{front} {last}");
    }
    assert!(rt; sink.bytes().is_empty());
}

// An example is a line with the words of a command, a trace, and behind a line `reports` what is wanted of the report. The report, and that.
pub fn reported<'a>(rt: &(impl Abort + AllocGlobal), example: &'a str) -> (Vec<u8>, &'a str) {
    let (run, wanted) = example.split_once("reports\n").expect(rt, "a report");
    let (command, trace) = run.split_once('\n').expect(rt, "a command");
    let (status, report) = ran(rt, command, trace.as_bytes(), usize::MAX);
    assert!(rt; status == Status::Done, "{example}");
    (report, wanted)
}

// Whether a report has each of these lines.
pub fn has_lines(rt: &impl Abort, report: &[u8], lines: &str) -> bool {
    let text = str::from_utf8(report).expect(rt, "a text");
    for wanted in lines.lines() {
        if !text.lines().any(|line| line == wanted) {
            return false;
        }
    }
    true
}

#[test]
fn the_first_update_is_reported_whatever_the_pieces(rt: HostRuntime) {
    for most in [1, 7, usize::MAX] {
        answers(&rt, "turns", FIRST_UPDATE, most, Status::Done, FIRST_REPORT);
    }
}

const BAD_TRACES: [(&str, Status, &str); 3] = [
    ("", Status::BadTrace, "bad trace line 1: end\n"),
    (
        "xen-pv-trace 1\nframes 0\n",
        Status::BadTrace,
        "bad trace line 2: range\n",
    ),
    (
        "xen-pv-trace 1\nframes 4097\n",
        Status::TooLarge,
        "too large line 2: frames 4097\n",
    ),
];

#[test]
fn a_bad_trace_and_a_large_one_are_named_with_their_line(rt: HostRuntime) {
    for (trace, status, text) in BAD_TRACES {
        answers(&rt, "turns", trace, 7, status, text);
    }
}

// A free frame, a frame that the machine has not, and a command that is not built; the last frame, and one past it.
#[test]
fn each_refusal_of_an_update_names_what_was_found(rt: HostRuntime) {
    answers(
        &rt,
        "turns",
        "xen-pv-trace 1\nframes 16\ndomain 16\nvcpu 0\nown 0 0 8\nop 0 mmu 0x7ff0 0xc001 1\nop 0 mmu 0x7ff0 0x10001 1\nop 0 mmu 0x7ff0 0x3 1\nturn 0 3\nend\n",
        usize::MAX,
        Status::Done,
        "vcpu 0 domain 0 base - user - old - -\nop 1 refused 2 done 0 WrongOwner frame=12 found=free\nop 2 refused 1 done 0 NoFrame frame=16\nop 3 refused 19 done 0 BadCommand\ndomain 0 live pages 8\nframe 0 owner 0 refs 1 alloc type none count 0 flags - at 0 m2p -\nframe 1 owner 0 refs 1 alloc type none count 0 flags - at 0 m2p -\nframe 2 owner 0 refs 1 alloc type none count 0 flags - at 0 m2p -\nframe 3 owner 0 refs 1 alloc type none count 0 flags - at 0 m2p -\nframe 4 owner 0 refs 1 alloc type none count 0 flags - at 0 m2p -\nframe 5 owner 0 refs 1 alloc type none count 0 flags - at 0 m2p -\nframe 6 owner 0 refs 1 alloc type none count 0 flags - at 0 m2p -\nframe 7 owner 0 refs 1 alloc type none count 0 flags - at 0 m2p -\nfree 8\nend\n",
    );
}

// Two domains take turns in the order of the lines; the second has a turn too few for its script.
#[test]
fn turns_are_taken_in_the_order_of_their_lines(rt: HostRuntime) {
    answers(
        &rt,
        "turns",
        "xen-pv-trace 1\nframes 2\ndomain 1\ndomain 1\nvcpu 0\nvcpu 1\nown 0 0 1\nown 1 1 1\nop 0 mmu 0x7ff0 0x1 7\nop 1 mmu 0x7ff0 0x1001 8\nop 1 mmu 0x7ff0 0x1 9\nop 1 mmu 0x7ff0 0x1001 10\nturn 1 2\nturn 0 5\nend\n",
        usize::MAX,
        Status::Done,
        "vcpu 0 domain 0 base - user - old - -\nop 1 ok done 1 value 0x0\nvcpu 1 domain 1 base - user - old - -\nop 1 ok done 1 value 0x0\nop 2 refused 2 done 0 WrongOwner frame=0 found=d0,1,a\npending 1\ndomain 0 live pages 1\ndomain 1 live pages 1\nframe 0 owner 0 refs 1 alloc type none count 0 flags - at 0 m2p 0x7\nframe 1 owner 1 refs 1 alloc type none count 0 flags - at 0 m2p 0x8\nfree 0\nend\n",
    );
}

// Words, and one more.
const OTHER_WORDS: [(&str, &str); 14] = [
    ("", "dance"),
    ("turns --preempt", ""),
    ("turns --preempt", "01"),
    ("turns --preempt", "+1"),
    ("turns --preempt", "1 "),
    ("turns --preempt", "0x1"),
    ("turns --preempt", "1000001"),
    ("turns --preempt", "10000000000000000000000"),
    ("turns", "--preempt"),
    ("turns", "--preempt="),
    ("turns", "--preempt=01"),
    ("turns", "--preempt=+1"),
    ("turns", "--help"),
    ("turns", "--"),
];

#[test]
fn other_words_are_refused_before_anything_is_read(rt: HostRuntime) {
    let mut source = source_of(&rt, FIRST_UPDATE.as_bytes(), usize::MAX, 0);
    let mut sink = sink_of(&rt, usize::MAX, 0);
    assert!(rt; run_paced(&rt, &[], &mut source, &mut sink) == Status::BadWords);
    refuses(&rt, &OTHER_WORDS, &mut source, &mut sink);
    let words = words_of(&rt, "turns");
    assert!(rt; run_paced(&rt, &words, &mut source, &mut sink) == Status::Done);
}

// That no fault is possible here follows from the contract of `run` and the constant counts of these two.
#[test]
fn a_source_and_a_sink_that_cannot_fail_give_no_fault(rt: HostRuntime) {
    let words = words_of(&rt, "turns");
    let bytes = FIRST_UPDATE
        .as_bytes()
        .to_vec(rt.alloc())
        .expect(&rt, "memory");
    let mut source = HonestSource::new(bytes);
    let mut sink = HonestSink::new();
    let answer = run_paced(&rt, &words, &mut source, &mut sink);
    let fault = matches!(answer, Status::ReadFault | Status::WriteFault);
    prove!(!fault);
    assert!(rt; answer == Status::Done);
}

// A guest sets up its tables, uses them and gives pages back; then another domain destroys it.
const GUEST: &str =
    "xen-pv-trace 1\nframes 64\ndomain 8\ndomain 40\npriv 0 1\nvcpu 0\nvcpu 1\nown 0 0 8\nown 1 8 40\ncell 8 0 1 0x9007\ncell 9 0 1 0xa007\ncell 10 0 1 0xb007\ncell 11 0 1 0x8005\ncell 11 1 1 0x9005\ncell 11 2 1 0xa005\ncell 11 3 1 0xb005\ncell 11 4 1 0xc007\ncell 11 5 1 0xd007\ncell 11 6 1 0xe007\nop 1 ext 3 8 0 5 8 0\nop 1 write k 0x6000 0xf007\nop 1 va 0x6000 0xe005 2\nop 1 mmu 0x7ff0 0xa008 0xe007\nop 1 write k 0x200000 0x1234\nop 1 va 0x5000 0x0 2\nop 1 mem 1 0 13 47\nop 1 mem 6 0 5\nop 1 read k 0x200000\nop 0 ext 0 3 0\nop 0 mmu 0x1 0x3000 0xf001\nop 0 destroy 1\nturn 1 4\nturn 0 1\nturn 1 5\nturn 0 1\nturn 1 3\nturn 0 1\nend\n";

// How often its trace is read, and its report written, in pieces of 7 bytes.
const GUEST_READS: u64 = 87;

const GUEST_WRITES: u64 = 152;

// One operation of each form.
const OPERATIONS: &str =
    "xen-pv-trace 2\nframes 16\nlimit 9\nclock 5\ndomain 8\ndomain 8\npriv 0 1\nvcpu 0\nvcpu 1\nown 0 0 8\ncell 4 0 1 28673\nop 0 mmu 32752 1 2 3 4\nop 0 ext 4 5 0 3 6 0\nop 0 va 4096 3 1\nop 0 vaother 4096 3 1 2\nop 0 gdt 600 7 8\nop 0 desc 28672 9\nop 0 mem 6 0 4 5\nop 0 multi mmu 1 2 3 ; ext 4 5 6 ; gdt 0 ; va 1 2 3\nop 0 read k 4096\nop 0 read u 4096\nop 0 write k 1 2\nop 0 write u 1 2\nop 0 ldt 3\nop 1 destroy 1\nop 1 grant 0 1\nop 1 revoke 0 1\nop 1 ptwr u 1 2\nop 1 xchg 0 1 2 5 6 40\nturn 0 14\nturn 1 5\nend\n";

// The guest's trace, read in pieces of 7 bytes, where this read fails; nothing is to be written then.
fn answer_where_read_fails(rt: &(impl Abort + AllocGlobal), call: u64) -> Status {
    let words = words_of(rt, "turns");
    let mut source = source_of(rt, GUEST.as_bytes(), 7, call);
    let mut sink = sink_of(rt, usize::MAX, 0);
    let answer = run_paced(rt, &words, &mut source, &mut sink);
    assert!(rt; answer == Status::Done || sink.bytes().is_empty());
    answer
}

// The last read finds that there is no more.
#[test]
fn a_failing_read_writes_nothing(rt: HostRuntime) {
    for call in 1..=GUEST_READS {
        assert!(rt; answer_where_read_fails(&rt, call) == Status::ReadFault);
    }
    assert!(rt; answer_where_read_fails(&rt, GUEST_READS + 1) == Status::Done);
}

// The guest's report, written in pieces of 7 bytes, where this write fails; what is written is a front of that report.
fn answer_where_write_fails(rt: &(impl Abort + AllocGlobal), call: u64, report: &[u8]) -> Status {
    let words = words_of(rt, "turns");
    let mut source = source_of(rt, GUEST.as_bytes(), usize::MAX, 0);
    let mut sink = sink_of(rt, 7, call);
    let answer = run_paced(rt, &words, &mut source, &mut sink);
    let whole = call.saturating_sub(1).saturating_mul(7);
    assert!(rt; report.starts_with(sink.bytes()));
    assert!(rt; sink.bytes().len() as u64 == whole.min(report.len() as u64));
    answer
}

#[test]
fn a_failing_write_leaves_a_front_of_the_report(rt: HostRuntime) {
    let report = report_of(&rt, "turns", GUEST.as_bytes());
    for call in 1..=GUEST_WRITES {
        assert!(rt; answer_where_write_fails(&rt, call, &report) == Status::WriteFault);
    }
    assert!(rt; answer_where_write_fails(&rt, GUEST_WRITES + 1, &report) == Status::Done);
}

// A trace, read and written.
fn written_again(rt: &(impl Abort + AllocGlobal), trace: &[u8]) -> Result<Vec<u8>, Fail> {
    let trace = read_trace(rt.alloc(), trace)?;
    Ok(write_trace(rt.alloc(), &trace)?)
}

#[test]
fn a_trace_written_and_read_again_is_the_same_and_runs_alike(rt: HostRuntime) -> Result<(), Fail> {
    for text in [GUEST, OPERATIONS] {
        let written = written_again(&rt, text.as_bytes())?;
        assert!(rt; written_again(&rt, &written)? == written);
        let report = report_of(&rt, "turns", text.as_bytes());
        assert!(rt; report_of(&rt, "turns", &written) == report);
    }
    Ok(())
}

// It is bad at this line, which is not there.
fn ends_early(rt: &(impl Abort + AllocGlobal), front: &str, line: u32) {
    let want = format!(in rt.alloc(); "bad trace line {line}: end\n").expect(rt, "memory");
    answers(
        rt,
        "turns",
        front,
        usize::MAX,
        Status::BadTrace,
        want.as_str(),
    );
}

#[test]
fn a_guest_cut_after_any_line_is_a_bad_trace_that_ends_there(rt: HostRuntime) -> Result<(), Fail> {
    let mut front = String::new(rt.alloc());
    let mut line = 1u32;
    for next in GUEST.lines() {
        if next == "end" {
            break;
        }
        front.push_str(next)?;
        front.push('\n')?;
        line = line.saturating_add(1);
        ends_early(&rt, front.as_str(), line);
    }
    Ok(())
}
