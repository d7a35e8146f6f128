//! Translations (own_cache): walks of one vCPU on a machine of 100 frames, told step by step. A helper answers false where the walk awaits another step.
ghost use Rattle.xp_words.specs.Machine.{IsMachine};

use crate::machines::hundred_frames;
use own_cache::{Translations, touched};
use xp_board::{Act, Item, Mark, Step, StepKind};
use xp_words::Layout;

// The bits of entries: present, writable and for the user; accessed too; accessed and not writable; accessed and dirty.
const FRESH: u64 = 7;

const ACCESSED: u64 = 7 + 32;

const FIXED: u64 = 5 + 32;

const DIRTY: u64 = 7 + 32 + 64;

// The kernel's base, word 0, or the user's, word 1, is loaded.
fn begin(t: &mut Translations, layout: &Layout, base: u32, write: bool, word: u32) -> bool {
    if base > 1 || word > layout.frames {
        return false;
    }
    let step = Step {
        place: layout.vcpu_place(0, base),
        act: Act::Load,
        kind: StepKind::Fill,
        mark: Some(Mark::Walk { write }),
    };
    t.hear(layout, 0, step, u64::from(word));
    true
}

// An entry of the table is loaded.
fn load(t: &mut Translations, layout: &Layout, table: u32, index: u16, word: u64) -> bool {
    let Some(flight) = t.flight() else {
        return false;
    };
    if flight.touching || flight.table != table || table >= layout.frames || index >= 512 {
        return false;
    }
    let step = Step {
        place: layout.cell_place(table, index),
        act: Act::Load,
        kind: StepKind::Fill,
        mark: None,
    };
    t.hear(layout, 0, step, word);
    true
}

// The entry is exchanged for one with its bits, where it is still `expected`.
fn touch(t: &mut Translations, layout: &Layout, index: u16, expected: u64, found: u64) -> bool {
    let Some(flight) = t.flight() else {
        return false;
    };
    if !flight.touching || flight.table >= layout.frames || index >= 512 {
        return false;
    }
    let new = touched(flight.write, flight.writable, flight.level, expected);
    let step = Step {
        place: layout.cell_place(flight.table, index),
        act: Act::Cas { expected, new },
        kind: StepKind::Touch,
        mark: None,
    };
    t.hear(layout, 0, step, found);
    true
}

// A look at the clock that drops a page.
fn forget(t: &mut Translations, layout: &Layout, page: u64)
    requires { IsMachine layout.now }
{
    let step = Step {
        place: 0,
        act: Act::Load,
        kind: StepKind::Look,
        mark: Some(Mark::Forget { page }),
    };
    t.hear(layout, 0, step, 5);
}

// The flushed word is stored.
fn flush(t: &mut Translations, layout: &Layout)
    requires { IsMachine layout.now }
{
    let step = Step {
        place: layout.vcpu_place(0, 5),
        act: Act::Store { new: 5 },
        kind: StepKind::Ack,
        mark: None,
    };
    t.hear(layout, 0, step, 0);
}

fn entry(bits: u64, frame: u32) -> u64 {
    bits | (u64::from(frame) << 12)
}

// A walk through tables 10, 20, 30 and 40, by entries 0, 0, 0 and `index`. All are accessed; the last has those bits.
fn walk(t: &mut Translations, layout: &Layout, write: bool, index: u16, last: u64) -> bool {
    begin(t, layout, 0, write, 11)
        & load(t, layout, 10, 0, entry(ACCESSED, 20))
        & load(t, layout, 20, 0, entry(ACCESSED, 30))
        & load(t, layout, 30, 0, entry(ACCESSED, 40))
        & load(t, layout, 40, index, last)
}

// The walk begins, and sets the bits of entry `index` of table 10, which it finds as it is said.
fn set_first(
    t: &mut Translations,
    layout: &Layout,
    base: u32,
    write: bool,
    index: u16,
    found: u64,
) -> bool {
    let first = entry(FRESH, 20);
    begin(t, layout, base, write, 11)
        & load(t, layout, 10, index, first)
        & touch(t, layout, index, first, found)
}

// The frame to which a page of the kernel is translated.
fn frame_of(t: &Translations, page: u64) -> Option<u32> {
    t.cached(false, page).map(|item| item.frame)
}

// Whether that frame may be written, and whether it was.
fn marks_of(t: &Translations, page: u64) -> Option<(bool, bool)> {
    t.cached(false, page)
        .map(|item| (item.writable, item.dirty))
}

// Entries 1, 2, 3 and 4 of the four tables are those of the address 0x80_8060_4000.
#[test]
fn a_walk_for_a_write_sets_its_bits_and_makes_an_item(rt: HostRuntime) {
    let layout = hundred_frames();
    let mut t = Translations::new(rt.alloc()).expect(&rt, "memory");
    let last = entry(ACCESSED, 50);
    let page = 0x80_8060_4000 >> 12;
    let loaded = set_first(&mut t, &layout, 1, true, 1, entry(FRESH, 20))
        & load(&mut t, &layout, 20, 2, entry(ACCESSED, 30))
        & load(&mut t, &layout, 30, 3, entry(ACCESSED, 40))
        & load(&mut t, &layout, 40, 4, last);
    assert!(rt; (loaded, t.cached(true, page)) == (true, None));
    assert!(rt; touch(&mut t, &layout, 4, last, last));
    let item = Item {
        user: true,
        page,
        frame: 50,
        writable: true,
        dirty: true,
    };
    assert!(rt; t.cached(true, page) == Some(item));
    assert!(rt; (t.cached(false, page), t.cached(true, page + 1)) == (None, None));
}

// The third page's frame is not one of the machine's, and the fourth has no entry.
#[test]
fn an_item_says_what_its_entries_allow(rt: HostRuntime) {
    let layout = hundred_frames();
    let mut t = Translations::new(rt.alloc()).expect(&rt, "memory");
    let walked = walk(&mut t, &layout, true, 0, entry(FIXED, 50))
        & walk(&mut t, &layout, false, 1, entry(DIRTY, 51))
        & walk(&mut t, &layout, false, 2, entry(ACCESSED, 100))
        & walk(&mut t, &layout, false, 3, 0);
    assert!(rt; walked);
    assert!(rt; [frame_of(&t, 0), frame_of(&t, 1)] == [Some(50), Some(51)]);
    assert!(rt; [marks_of(&t, 0), marks_of(&t, 1)] == [Some((false, false)), Some((true, true))]);
    assert!(rt; [frame_of(&t, 2), frame_of(&t, 3)] == [None, None]);
}

#[test]
fn a_lost_exchange_ends_the_walk(rt: HostRuntime) {
    let layout = hundred_frames();
    let mut t = Translations::new(rt.alloc()).expect(&rt, "memory");
    assert!(rt; set_first(&mut t, &layout, 0, false, 0, entry(DIRTY, 20)));
    assert!(rt; !load(&mut t, &layout, 20, 0, entry(ACCESSED, 30)));
}

#[test]
fn a_forgotten_page_goes_and_at_a_flush_all_do(rt: HostRuntime) {
    let layout = hundred_frames();
    let mut t = Translations::new(rt.alloc()).expect(&rt, "memory");
    let walked = walk(&mut t, &layout, false, 0, entry(ACCESSED, 50))
        & walk(&mut t, &layout, false, 1, entry(ACCESSED, 51))
        & walk(&mut t, &layout, false, 2, entry(ACCESSED, 52));
    assert!(rt; walked);
    forget(&mut t, &layout, 1);
    assert!(rt; [frame_of(&t, 0), frame_of(&t, 1), frame_of(&t, 2)] == [Some(50), None, Some(52)]);
    flush(&mut t, &layout);
    assert!(rt; [frame_of(&t, 0), frame_of(&t, 2)] == [None, None]);
}

#[test]
fn the_newest_64_items_are_kept(rt: HostRuntime) {
    let layout = hundred_frames();
    let mut t = Translations::new(rt.alloc()).expect(&rt, "memory");
    let mut walked = true;
    for index in 0..65 {
        walked &= walk(&mut t, &layout, false, index, entry(ACCESSED, 60));
    }
    assert!(rt; walked);
    assert!(rt; [frame_of(&t, 0), frame_of(&t, 1), frame_of(&t, 64)] == [None, Some(60), Some(60)]);
    assert!(rt; walk(&mut t, &layout, false, 1, entry(ACCESSED, 61)));
    assert!(rt; frame_of(&t, 1) == Some(61));
}

// Whether a walk writes and may write, the level, the word, and the word with its bits.
const TOUCHED: [(bool, bool, u8, u64, u64); 5] = [
    (false, true, 1, FRESH, ACCESSED),
    (true, true, 1, FRESH, DIRTY),
    (true, false, 1, FRESH, ACCESSED),
    (true, true, 2, FRESH, ACCESSED),
    (true, true, 1, DIRTY, DIRTY),
];

#[test]
fn bits_5_and_6_are_set_where_the_walk_needs_them(rt: HostRuntime) {
    for (write, writable, level, word, want) in TOUCHED.iter() {
        assert!(rt; touched(*write, *writable, *level, *word) == *want);
    }
}
