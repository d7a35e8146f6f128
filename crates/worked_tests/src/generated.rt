//! Generated traces (trace_gen), by their text.
use std::process::Abort;
use trace_gen::generate;
use trace_text::write_trace;

// Of 7 operations: a whole round, and the first one of the next.
const SEVEN: &str = "xen-pv-trace 1
frames 256
limit 67108863
clock 1
domain 256
vcpu 0
own 0 0 192
op 0 mmu 32752 1 0
op 0 ext 0 32 0
op 0 mmu 32752 131072 262147
op 0 mmu 32752 131072 0
op 0 mem 1 0 128
op 0 mem 6 0 0
op 0 mmu 32752 4097 1
turn 0 8
end
";

// The trace of so many operations.
fn written(rt: &(impl Abort + AllocGlobal), operations: u32) -> Vec<u8> {
    let trace = generate(rt.alloc(), operations.clamp(1, 60_000)).expect(rt, "memory");
    write_trace(rt.alloc(), &trace).expect(rt, "memory")
}

#[test]
fn seven_operations_are_a_round_and_one_more(rt: HostRuntime) {
    assert!(rt; written(&rt, 7).as_slice() == SEVEN.as_bytes());
}

// How many operations, the last of them, and the turns.
const LAST: [(u32, &str, u32); 13] = [
    (1, "mmu 32752 1 0", 2),
    (2, "ext 0 32 0", 3),
    (188, "ext 0 63 0", 189),
    (194, "ext 0 32 0", 195),
    (187, "mmu 32752 126977 31", 188),
    (193, "mmu 32752 1 32", 194),
    (383, "mem 1 0 191", 384),
    (389, "mem 1 0 128", 390),
    (3069, "mmu 32752 262136 520195", 3070),
    (3075, "mmu 32752 131072 262147", 3076),
    (3081, "mmu 32752 135176 266243", 3082),
    (3082, "mmu 32752 135176 0", 3083),
    (60000, "mem 6 0 9999", 60001),
];

// The last lines of a trace.
fn end_of(rt: &(impl Abort + AllocGlobal), last: &str, turns: u32) -> String {
    format!(in rt.alloc(); "\nop 0 {last}\nturn 0 {turns}\nend\n").expect(rt, "memory")
}

#[test]
fn numbers_begin_again_behind_the_last_frame_and_the_last_entry(rt: HostRuntime) {
    for (operations, last, turns) in LAST.iter() {
        let text = written(&rt, *operations);
        let end = end_of(&rt, last, *turns);
        assert!(rt;
            text.as_slice().ends_with(end.as_bytes()),
            "of {operations}"
        );
    }
}
