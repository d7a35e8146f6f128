//! Lines of a trace (trace_lines).
use std::alloc::AllocError;
use std::process::Abort;
use trace_lines::{
    Line, LineError, line_of, put_cell, put_clock, put_domain, put_end, put_frames, put_header,
    put_limit, put_op, put_own, put_priv, put_turn, put_vcpu,
};

fn put_line(out: &mut String, line: Line) -> Result<(), AllocError> {
    match line {
        Line::Header { version } => put_header(out, version),
        Line::Frames { count } => put_frames(out, count),
        Line::Limit { count } => put_limit(out, count),
        Line::Clock { start } => put_clock(out, start),
        Line::Domain { limit } => put_domain(out, limit),
        Line::Priv { domain, over } => put_priv(out, domain, over),
        Line::Vcpu { domain } => put_vcpu(out, domain),
        Line::Own {
            domain,
            first,
            count,
        } => put_own(out, domain, first, count),
        Line::Cell {
            frame,
            first,
            count,
            value,
        } => put_cell(out, frame, first, count, value),
        Line::Op { vcpu, op } => put_op(out, vcpu, &op),
        Line::Turn { vcpu, count } => put_turn(out, vcpu, count),
        Line::End => put_end(out),
    }
}

// Lines, as they are written again once they are read.
fn again(rt: &(impl Abort + AllocGlobal), lines: &str) -> String {
    let mut out = String::new(rt.alloc());
    for text in lines.lines() {
        let line = line_of(rt.alloc(), 2, text.as_bytes()).expect(rt, text);
        put_line(&mut out, line).expect(rt, "memory");
    }
    out
}

// None of these lines, with a | between them, has a form.
fn have_no_form(rt: &(impl Abort + AllocGlobal), version: u8, lines: &str) {
    for text in lines.split('|') {
        let fault = line_of(rt.alloc(), version, text.as_bytes()).err();
        assert!(rt; fault == Some(LineError::LINE), "at {text}");
    }
}

const NUMBERS: &str = "clock 0
clock 0x0
clock 9
clock 0xaf09
clock 18446744073709551615
clock 0xffffffffffffffff
";

const READ: &str = "clock 0
clock 0
clock 9
clock 44809
clock 18446744073709551615
clock 18446744073709551615
";

const NO_NUMBERS: &str =
    "clock 18446744073709551616|clock 0x10000000000000000|clock |clock 00|clock 01|clock 0x|clock 0x00|clock 0x01|clock 0X1|clock 0xA|clock 0xg|clock +1|clock 1a|clock 1_0";

#[test]
fn numbers_are_spelled_in_one_way(rt: HostRuntime) {
    assert!(rt; again(&rt, NUMBERS).as_str() == READ);
    have_no_form(&rt, 2, NO_NUMBERS);
}

// A line of each form.
const FORMS: &str = "xen-pv-trace 1
xen-pv-trace 2
frames 16
limit 2
clock 68719476734
domain 65536
priv 0 1
vcpu 1
own 0 4 8
cell 4 0 1 28673
op 0 mmu 32752
op 0 mmu 32752 1 2 3 18446744073709551615
op 0 ext 4 5 0 3 6 0
op 0 va 4096 3 1
op 0 vaother 4096 3 1 2
op 0 gdt 600 7 8
op 0 desc 28672 9
op 0 mem 6 0 4 5
op 0 multi ext
op 0 multi mmu 1 2 3 ; ext 4 5 6 ; gdt 0 ; va 1 2 3
op 0 read k 4096
op 0 read u 4096
op 0 write k 1 2
op 0 ldt 3
op 0 destroy 1
op 0 grant 0 1
op 0 revoke 0 1
op 0 ptwr u 1 2
op 0 xchg 0 1 2 5 6 40
turn 3 4
end
";

#[test]
fn each_form_is_read_and_written(rt: HostRuntime) {
    assert_eq!(rt; again(&rt, FORMS).as_str(), FORMS);
}

// Lines that are no forms of version 2, with a | between them; lines that are none of version 1; and one that is none of any other.
const OTHERS: [(u8, &str); 3] = [
    (
        2,
        "| | end|end |End|turn  0 0|turn 0 0 |turn\t0 0|turn 0 0\r|turn 0|turn 0 0 0|xen-pv-trace|xen-pv-trace 0x1|xen-pv-trace 3|op 0|op 0 mmu|op 0 mmu 0 1|op 0 ext 1 2|op 0 read x 1|op 0 multi|op 0 multi |op 0 multi ; ext|op 0 multi ext ;|op 0 multi ext ; ; ext|op 0 multi ext;ext|op 0 multi read k 1|op 0 multi grant 0 1|op 0 multi multi ext|op 0 va 1 2 3 ; ext",
    ),
    (
        1,
        "op 0 grant 0 1|op 0 revoke 0 1|op 0 ptwr k 1 2|op 0 xchg 0 0 0",
    ),
    (0, "op 0 grant 0 1"),
];

#[test]
fn other_lines_are_no_forms(rt: HostRuntime) {
    for (version, lines) in OTHERS.iter() {
        have_no_form(&rt, *version, lines);
    }
}
