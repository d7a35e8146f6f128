//! Traces (trace_text): examples, worked by hand from the table of lines.

use std::alloc::AllocError;
use std::process::Abort;
use trace_lines::{Cause, What};
use trace_text::{Trace, TraceFault, read_trace, write_trace};
use xp_words::{Layout, Script};

// Nine lines with which a trace may begin.
const HEAD: &str =
    "xen-pv-trace 1\nframes 16\nlimit 9\nclock 5\ndomain 8\ndomain 3\npriv 0 1\nvcpu 1\nvcpu 0\n";

// What is answered, and a text, where ~ stands for the nine lines and | for a line feed.
const CASES: &str = "1 end:
1 end:#
1 end:xen-pv-trace 1
1 place:frames 1|
1 place:own 0 0 1|
1 line:op 0 grant 0 1|
1 line:xen-pv-trace 3|
2 place:xen-pv-trace 1|limit 2|
2 range:xen-pv-trace 1|frames 0|
2 frames 4097:xen-pv-trace 1|frames 4097|
2 frames 65537:xen-pv-trace 2|frames 65537|
2 frames 18446744073709551615:xen-pv-trace 1|frames 18446744073709551615|
5 range:#|xen-pv-trace 1|#|frames 1|limit 1|
3 range:xen-pv-trace 1|frames 4096|limit 67108864|
3 range:xen-pv-trace 2|frames 65536|clock 0|
3 range:xen-pv-trace 1|frames 1|clock 68719476735|
4 place:xen-pv-trace 1|frames 1|clock 68719476734|limit 2|
4 place:xen-pv-trace 1|frames 1|limit 2|limit 2|
4 place:xen-pv-trace 1|frames 1|limit 67108863|priv 0 1|
3 place:xen-pv-trace 1|frames 1|vcpu 0|
3 range:xen-pv-trace 1|frames 1|domain 65537|
4 range:xen-pv-trace 1|frames 1|domain 65536|priv 0 1|
4 range:xen-pv-trace 1|frames 1|domain 1|priv 0 0|
4 place:xen-pv-trace 1|frames 1|domain 1|own 0 0 1|
6 place:xen-pv-trace 1|frames 1|domain 1|domain 1|priv 0 1|domain 1|
4 place:xen-pv-trace 1|frames 1|domain 1|turn 0 1|
4 place:xen-pv-trace 1|frames 1|domain 1|end|
10 place:~xen-pv-trace 1|
10 line:~xen-pv-trace 0x1|
10 place:~frames 0|
10 place:~limit 2|
10 place:~clock 1|
10 place:~domain 1|
10 place:~priv 0 1|
11 place:~own 0 0 1|vcpu 0|
11 place:~cell 0 0 1 0|own 0 0 1|
11 place:~turn 0 1|cell 0 0 1 0|
11 place:~op 0 ldt 0|own 0 0 1|
10 range:~vcpu 2|
10 range:~own 2 0 1|
10 range:~own 0 0 0|
10 range:~own 0 9 8|
10 range:~own 0 1 18446744073709551615|
10 range:~own 0 0 9|
11 range:~own 1 0 2|own 1 2 2|
11 range:~own 0 4 4|own 1 3 2|
11 range:~own 0 4 4|own 1 7 1|
12 range:~own 0 4 4|own 1 8 1|own 1 3 2|
10 range:~cell 16 0 1 0|
10 range:~cell 0 0 0 0|
10 range:~cell 5 512 1 0|
10 range:~cell 0 0 513 0|
10 range:~op 2 ldt 0|
10 range:~turn 2 1000001|
10 line:~op 0 jump 1|
10 end:~op 0 jum
10 line:~op 0 grant 0 1|
10 line:~op 0 multi|
10 line:~|
10 line:~ end|
14 end:~own 0 0 8|own 1 8 3|cell 15 511 1 0|turn 1 0|end
11 end:~end|end|
11 end:~end||
11 end:~end|#|
11 end:~end|é
12 line:~#|# end é||
10 end:~#end
10 end:~
12 turns 1000001:~turn 0 1000000|turn 1 0|turn 1 1|
11 turns 18446744073709551615:~turn 0 1|turn 0 18446744073709551615|
12 extents 1000001:~op 0 mem 64 0 1000000|op 0 mem 0 0|op 1 mem 1 0 9|
11 extents 18446744073709551615:~op 0 mem 1 0 9 9|op 0 mem 0 0 18446744073709551615|
10 extents 18446744073709551615:~op 0 multi mem 0 0 18446744073709551615 ; mem 0 0 2|
read:~end|
read:~own 0 0 8|own 1 8 3|cell 15 511 1 0|turn 1 0|#|op 1 multi va 0 0 0 ; ext|end|";

fn cause_word(cause: Cause) -> &'static str {
    match cause {
        Cause::End => "end",
        Cause::Line => "line",
        Cause::Place => "place",
        Cause::Range => "range",
    }
}

fn what_word(what: What) -> &'static str {
    match what {
        What::Bytes => "bytes",
        What::Frames => "frames",
        What::Domains => "domains",
        What::Vcpus => "vcpus",
        What::Ops => "ops",
        What::Destroys => "destroys",
        What::Numbers => "numbers",
        What::Extents => "extents",
        What::Turns => "turns",
    }
}

fn answer(rt: &(impl Abort + AllocGlobal), bytes: &[u8]) -> String {
    let told = match read_trace(rt.alloc(), bytes).err() {
        None => format!(in rt.alloc(); "read"),
        Some(TraceFault::Bad { line, cause }) => {
            format!(in rt.alloc(); "{line} {}", cause_word(cause))
        }
        Some(TraceFault::Large { line, what, number }) => {
            format!(in rt.alloc(); "{line} {} {number}", what_word(what))
        }
        Some(TraceFault::Memory) => Err(AllocError),
    };
    told.expect(rt, "memory")
}

fn spelled(rt: &(impl Abort + AllocGlobal), text: &str) -> String {
    let whole = text.replace(rt.alloc(), '~', HEAD).expect(rt, "memory");
    whole
        .as_str()
        .replace(rt.alloc(), '|', "\n")
        .expect(rt, "memory")
}

// Whether a row's text is answered as the row says.
fn is_answered(rt: &(impl Abort + AllocGlobal), row: &str) -> bool {
    let Some((want, text)) = row.split_once(':') else {
        return false;
    };
    answer(rt, spelled(rt, text).as_bytes()).as_str() == want
}

#[test]
fn each_text_is_answered_by_its_first_fault(rt: HostRuntime) {
    for row in CASES.lines() {
        assert!(rt; is_answered(&rt, row), "at {row}");
    }
}

// What is answered at the line that is one too many: the lines before, that line, and how many it is then.
const LONG: [(&str, &str, &str, usize); 5] = [
    ("19 domains 17", "xen-pv-trace 1|frames 1|", "domain 0|", 17),
    (
        "20 vcpus 17",
        "xen-pv-trace 1|frames 1|domain 0|",
        "vcpu 0|",
        17,
    ),
    (
        "21 destroys 17",
        "xen-pv-trace 1|frames 1|domain 0|vcpu 0|",
        "op 0 destroy 9|",
        17,
    ),
    (
        "65541 ops 65537",
        "xen-pv-trace 1|frames 1|domain 0|vcpu 0|",
        "op 0 ldt 9|",
        65537,
    ),
    ("10 numbers 8193", "~op 0 gdt 1", " 2", 8193),
];

// What is answered where that line stands so often.
fn answer_to_many(rt: &(impl Abort + AllocGlobal), head: &str, each: &str, count: usize) -> String {
    let many = each.repeat(rt.alloc(), count).expect(rt, "memory");
    let text = format!(in rt.alloc(); "{head}{many}|").expect(rt, "memory");
    answer(rt, spelled(rt, text.as_str()).as_bytes())
}

#[test]
fn one_more_than_a_limit_is_too_large(rt: HostRuntime) {
    for (want, head, each, many) in LONG.iter() {
        let within = answer_to_many(&rt, head, each, many.saturating_sub(1));
        let above = answer_to_many(&rt, head, each, *many);
        assert!(rt; within.as_str() != *want, "within {want}");
        assert!(rt; above.as_str() == *want, "at {want}");
    }
}

// One line of each form, some out of the order in which they are written.
const TRACE: &str = "# any
#é
xen-pv-trace 2
frames 0x10
#
limit 9
clock 5
domain 8
domain 0
domain 65536
priv 2 1
priv 2 0
priv 2 1
priv 0 1
vcpu 2
vcpu 0
own 2 4 12
own 0 0 4
cell 15 511 1 18446744073709551615
cell 0 0 512 0
op 1 read k 0
turn 0 3
op 1 grant 0 1
op 0 destroy 1
turn 1 0
end
";

const WRITTEN: &str = "xen-pv-trace 2
frames 16
limit 9
clock 5
domain 8
domain 0
domain 65536
priv 0 1
priv 2 0
priv 2 1
vcpu 2
vcpu 0
own 2 4 12
own 0 0 4
cell 15 511 1 18446744073709551615
cell 0 0 512 0
op 0 destroy 1
op 1 read k 0
op 1 grant 0 1
turn 0 3
turn 1 0
end
";

// The version, the clock, the frames and the count limit.
fn numbers(trace: &Trace) -> [u64; 4] {
    let layout = &trace.layout;
    [
        u64::from(trace.version),
        trace.clock,
        u64::from(layout.frames),
        u64::from(layout.limit),
    ]
}

// Whether these are the limits and privileges of the domains, and the domains of the vCPUs.
fn are_domains(layout: &Layout, limits: &[u32], masks: &[u16], domains: &[u16]) -> bool {
    (layout.page_limit.as_slice() == limits)
        & (layout.privilege.as_slice() == masks)
        & (layout.vcpu_domain.as_slice() == domains)
}

// How many runs of frames, of cells and of turns there are.
fn runs(trace: &Trace) -> [usize; 3] {
    [trace.owned.len(), trace.cells.len(), trace.turns.len()]
}

// How many operations each of two scripts has.
fn lengths(scripts: &[Script]) -> Option<(usize, usize)> {
    match scripts {
        [first, second] => Some((first.len(), second.len())),
        _ => None,
    }
}

#[test]
fn a_trace_with_each_form_is_read_and_written(rt: HostRuntime) {
    let trace = read_trace(rt.alloc(), TRACE.as_bytes()).expect(&rt, "a trace");
    assert!(rt; numbers(&trace) == [2, 5, 16, 9]);
    assert!(rt; are_domains(&trace.layout, &[8, 0, 65536], &[2, 0, 3], &[2, 0]));
    assert!(rt; runs(&trace) == [2, 2, 2]);
    assert!(rt; lengths(trace.scripts.as_slice()) == Some((1, 2)));
    let text = write_trace(rt.alloc(), &trace).expect(&rt, "memory");
    assert!(rt; text.as_slice() == WRITTEN.as_bytes());
}

// Whether a text ends where that line is not whole.
fn ends_in(rt: &(impl Abort + AllocGlobal), text: &str, line: u32) -> bool {
    let want = format!(in rt.alloc(); "{line} end").expect(rt, "memory");
    answer(rt, text.as_bytes()).as_str() == want.as_str()
}

#[test]
fn a_text_cut_inside_a_line_ends_there(rt: HostRuntime) {
    let mut text = String::new(rt.alloc());
    let mut line = 1u32;
    for next in HEAD.lines() {
        text.push_str(next).expect(&rt, "memory");
        assert!(rt; ends_in(&rt, text.as_str(), line), "in {next}");
        text.push('\n').expect(&rt, "memory");
        line = line.saturating_add(1);
    }
}
