//! Opening words (machine_build): a trace of 2 domains, 1 vCPU and 65 frames, so that the map of free frames has 2 words.
use crate::sparse::word_at;
use machine_build::opening;
use sparse_words::SparseWords;
use std::process::Abort;
use trace_text::read_trace;

const TRACE: &str = "xen-pv-trace 2
frames 65
limit 2
clock 12
domain 65
domain 5
priv 0 1
vcpu 1
own 0 4 60
own 1 0 3
cell 64 0 512 7
cell 64 500 2 9
end
";

// Places, the words with which they open, and what these are.
const WORDS: [(u32, u64, &str); 13] = [
    (0, 12, "the clock"),
    (1, 60, "pages of domain 0"),
    (3, 3, "pages of domain 1"),
    (10, 12, "flushed"),
    (43, 0x8000000180000001, "refs of frame 0"),
    (1588, 0, "refs of frame 3"),
    (33005, u64::MAX, "m2p of frame 64"),
    (33505, 7, "cell 499"),
    (33506, 9, "cell 500"),
    (33508, 7, "cell 502"),
    (33518, 8, "frames 0 to 63"),
    (33519, 1, "frame 64"),
    (33520, 0x20002, "privileges of domain 0"),
];

fn opened(rt: &(impl Abort + AllocGlobal)) -> SparseWords {
    let trace = read_trace(rt.alloc(), TRACE.as_bytes()).expect(rt, "a trace");
    opening(rt.alloc(), &trace).expect(rt, "memory")
}

#[test]
fn a_small_machine_opens_with_the_words_of_its_trace(rt: HostRuntime) {
    let words = opened(&rt);
    assert!(rt; words.len() == 33522);
    for (place, word, what) in WORDS.iter() {
        assert!(rt; word_at(&words, *place) == Some(*word), "{what}");
    }
}
