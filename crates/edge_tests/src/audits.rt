//! The audit (walk_audit) of six frames, three domains of which the first has privilege over the second, and two vCPUs, of the first two. Frame 0 is a pinned table
//! of level 1, which maps frame 1 writable and frame 2, of the second domain, to be read. Frame 3 is a descriptor page that vCPU 0 has in its GDT. Frames 4 and 5
//! are free.
use crate::machines::{short_list, words_with};
use std::test::Fail;
use walk_audit::{Verdict, audit};
use xp_words::Layout;

// Where the words of each frame begin: 1 + 2 * 3 + 38 * 2, and 515 words a frame. Behind them stand one word of the map and three of privileges.
const FRAME: [usize; 6] = [83, 598, 1113, 1628, 2143, 2658];

const MAP: usize = 3173;

const PRIV: usize = 3174;

const WORDS: usize = 3177;

// The first words of the two vCPUs.
const VCPU: [usize; 2] = [7, 45];

// Reference words of the two domains: allocated, with no count yet.
const FIRST: u64 = 0x8000_0000_8000_0000;

const SECOND: u64 = 0x8000_0001_8000_0000;

// Kind words: live, pinned, and the types.
const LIVE: u64 = 1 << 50;

const PINNED: u64 = 1 << 51;

const L1: u64 = 1 << 52;

const DESC: u64 = 5 << 52;

const WRITABLE: u64 = 7 << 52;

fn layout() -> Layout {
    Layout {
        frames: 6,
        limit: 3,
        page_limit: short_list(&[4, 4, 4]),
        privilege: short_list(&[2, 0, 0]),
        vcpu_domain: short_list(&[0, 1]),
    }
}

// The words that are not 0.
const STANDING: [(usize, u64); 19] = [
    (0, 10),
    (1, 3),
    (3, 1),
    (7 + 8, 4),
    (83, FIRST + 2),
    (83 + 1, L1 + PINNED + LIVE + 1),
    (83 + 3, 0x1003),
    (83 + 4, 0x2001),
    (598, FIRST + 2),
    (598 + 1, WRITABLE + LIVE + 1),
    (1113, SECOND + 2),
    (1628, FIRST + 2),
    (1628 + 1, DESC + LIVE + 1),
    (2143, 5),
    (2658, 5),
    (MAP, 0x30),
    (PRIV, 0x2_0002),
    (PRIV + 1, 0),
    (PRIV + 2, 0),
];

// What the audit says of the words with these changes.
fn verdict(rt: &HostRuntime, changes: &[(usize, u64)]) -> Result<Verdict, Fail> {
    let layout = layout();
    let words = words_with(rt, &layout, &STANDING, changes)?;
    Ok(audit(rt.alloc(), &layout, &words)?)
}

// One word changed, and what is found then.
const CHANGES: [((usize, u64), Verdict); 22] = [
    // Odd words: the clock, pages, a word of the LDT, a count above the limit, a privilege.
    ((0, 0), Verdict::Word { place: 0, found: 0 }),
    ((1, 5), Verdict::Word { place: 1, found: 5 }),
    (
        (VCPU[1] + 37, 7),
        Verdict::Word {
            place: 82,
            found: 7,
        },
    ),
    (
        (FRAME[5], FIRST + 4),
        Verdict::Word {
            place: 2658,
            found: FIRST + 4,
        },
    ),
    (
        (PRIV + 2, 1),
        Verdict::Word {
            place: 3176,
            found: 1,
        },
    ),
    // Frames in hand: locked, and in work.
    ((FRAME[5], 1 << 63), Verdict::Held { frame: 5 }),
    ((FRAME[2] + 1, L1 + (1 << 48)), Verdict::Held { frame: 2 }),
    // Counts.
    (
        (FRAME[1], FIRST + 3),
        Verdict::Refs {
            frame: 1,
            want: 2,
            found: 3,
        },
    ),
    (
        (FRAME[1] + 1, WRITABLE + LIVE + 2),
        Verdict::Count {
            frame: 1,
            want: 1,
            found: 2,
        },
    ),
    (
        (FRAME[1] + 1, DESC + LIVE + 1),
        Verdict::OtherKind { frame: 1 },
    ),
    (
        (1, 2),
        Verdict::Pages {
            domain: 0,
            want: 3,
            found: 2,
        },
    ),
    // Entries: without the privilege, with a reserved bit, to a frame that is not there; and a descriptor.
    ((PRIV, 0), Verdict::BadEntry { frame: 0, index: 1 }),
    (
        (FRAME[0] + 3 + 2, 0x81),
        Verdict::BadEntry { frame: 0, index: 2 },
    ),
    (
        (FRAME[0] + 3 + 511, 0x6001),
        Verdict::BadEntry {
            frame: 0,
            index: 511,
        },
    ),
    (
        (FRAME[3] + 3 + 511, (1 << 47) + (1 << 40)),
        Verdict::BadEntry {
            frame: 3,
            index: 511,
        },
    ),
    // Stamps above the clock.
    ((VCPU[1] + 5, 11), Verdict::Stamp { place: 50 }),
    ((FRAME[4], 11), Verdict::Stamp { place: 2143 }),
    ((FRAME[2] + 1, 11), Verdict::Stamp { place: 1114 }),
    // A dead domain that has a page, one that has nothing, and the map of free frames.
    ((4, 255), Verdict::Dead { domain: 1 }),
    ((6, 255), Verdict::Sound),
    ((MAP, 0x10), Verdict::Map { word: 0 }),
    ((MAP, 0x70), Verdict::Map { word: 0 }),
];

#[test]
fn each_wrong_word_is_told(rt: HostRuntime) -> Result<(), Fail> {
    for (change, due) in CHANGES {
        assert_eq!(rt; verdict(&rt, &[change])?, due);
    }
    Ok(())
}

#[test]
fn the_machine_is_sound(rt: HostRuntime) -> Result<(), Fail> {
    assert_eq!(rt; layout().words() as usize, WORDS);
    assert_eq!(rt; verdict(&rt, &[])?, Verdict::Sound);
    Ok(())
}

#[test]
fn a_vcpu_may_not_name_a_frame_of_another_domain(rt: HostRuntime) -> Result<(), Fail> {
    let named_twice = [
        (VCPU[1] + 8, 4),
        (FRAME[3], FIRST + 3),
        (FRAME[3] + 1, DESC + LIVE + 2),
    ];
    assert_eq!(rt;
        verdict(&rt, &named_twice)?,
        Verdict::Context { vcpu: 1, word: 8 }
    );
    Ok(())
}
