//! A machine drawn (machine_draw): two domains and one vCPU. A top table leads by two tables to one of level 1, which maps a page writable by two entries and
//! another read-only by one.
use crate::machines::{short_list, words_with};
use machine_draw::draw;
use std::test::Fail;
use walk_audit::Verdict;
use xp_words::Layout;

fn layout() -> Layout {
    Layout {
        frames: 11,
        limit: 67_108_863,
        page_limit: short_list(&[16, 16]),
        privilege: short_list(&[0, 0]),
        vcpu_domain: short_list(&[0]),
    }
}

// Places and words that are not 0. The words of frame f begin at 43 + 515 f: references, kind, m2p and cells.
const WORDS: [(usize, u64); 29] = [
    // Pages of domains 0 and 1, and the base of the vCPU: frame 0.
    (1, 8),
    (3, 1),
    (5, 1),
    // Frame 0, a pinned top table; its entry 0 leads to frame 1, and entry 256 is Xen's.
    (43, 0x8000_0000_8000_0003),
    (44, 0x004c_0000_0000_0002),
    (46, 0x1007),
    (302, 0x1007),
    (558, 0x8000_0000_8000_0002),
    (559, 0x0034_0000_0000_0001),
    (561, 0x2007),
    (1073, 0x8000_0000_8000_0002),
    (1074, 0x0024_0000_0000_0001),
    (1076, 0x3007),
    // Frame 3, of level 1: frame 4 writable by entries 0, 1 and 511, frame 5 read-only by entry 2.
    (1588, 0x8000_0000_8000_0002),
    (1589, 0x0014_0000_0000_0001),
    (1591, 0x4007),
    (1592, 0x4007),
    (1593, 0x5005),
    (2102, 0x4007),
    (2103, 0x8000_0000_8000_0004),
    (2104, 0x0074_0000_0000_0003),
    (2618, 0x8000_0000_8000_0003),
    // Frames 6 and 7 of domain 0, which nothing names.
    (3133, 0x8000_0000_8000_0001),
    (3648, 0x8000_0000_8000_0001),
    // Frames 8 and 9 are free since the clock was 5.
    (4163, 5),
    (4678, 5),
    // Frame 10 of domain 1.
    (5193, 0x8000_0001_8000_0001),
    // The clock, and the map of free frames.
    (0, 6),
    (5708, 0x300),
];

const DRAWN: &str = r#"digraph machine {
node [shape=box];
label="frame 5 refs want 2 found 3";
subgraph cluster_domain0 {
label="domain 0 live pages 8";
frame0 [label="frame 0\nowner 0 refs 3 alloc\ntype L4 count 2 flags pv at 0\nslots 256-271 are Xen's"];
frame1 [label="frame 1\nowner 0 refs 2 alloc\ntype L3 count 1 flags v at 0"];
frame2 [label="frame 2\nowner 0 refs 2 alloc\ntype L2 count 1 flags v at 0"];
frame3 [label="frame 3\nowner 0 refs 2 alloc\ntype L1 count 1 flags v at 0"];
frame4 [label="frame 4\nowner 0 refs 4 alloc\ntype wr count 3 flags v at 0"];
frame5 [label="frame 5\nowner 0 refs 3 alloc\ntype none count 0 flags - at 0",color=red];
frames6to7 [label="frames 6-7"];
vcpu0 [label="vcpu 0",shape=ellipse];
}
subgraph cluster_domain1 {
label="domain 1 live pages 1";
frames10to10 [label="frames 10"];
}
frames8to9 [label="free 8-9"];
frame0 -> frame1 [label="0 W"];
frame1 -> frame2 [label="0 W"];
frame2 -> frame3 [label="0 W"];
frame3 -> frame4 [label="0-1 W, 511 W"];
frame3 -> frame5 [label="2 R"];
vcpu0 -> frame0 [label="base"];
}
"#;

#[test]
fn a_small_machine_is_drawn(rt: HostRuntime) -> Result<(), Fail> {
    let layout = layout();
    let words = words_with(&rt, &layout, &WORDS, &[])?;
    let verdict = Verdict::Refs {
        frame: 5,
        want: 2,
        found: 3,
    };
    let drawn = draw(rt.alloc(), &layout, &words, verdict)?;
    assert_eq!(rt; drawn.as_slice(), DRAWN.as_bytes());
    Ok(())
}
