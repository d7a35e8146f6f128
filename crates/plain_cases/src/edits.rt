//! How a case differs from the small machine. An edit is of vCPU 0, or with `Other` in front of its name of vCPU 1.
use crate::said::{Said, read};
use plain_words::{
    Claimed, Ending, Frame, Hand, Held, Item, Live, Lock, Looking, Made, Owner, Place, Reached,
    Seen, State, Touching, Unsettled, Walk, Work, append, is_free, is_marked, names_frames, push,
    with_bit,
};
use xp_words::PageType;

/// A reference word with two references, one of them for the allocated mark: of domain 0, and of domain 1.
const TWO: u64 = (1 << 63) + (1 << 31) + 2;

const OTHERS_TWO: u64 = TWO + (1 << 32);

/// Kind words: live with one type count and under a lock, and the types.
const LIVE: u64 = (1 << 50) + 1;

const LOCKED: u64 = 1 << 48;

const TYPE: u64 = 1 << 52;

fn empty_hand(vcpu: u16) -> Hand {
    let mut steps = [None; 64];
    steps[0] = Some(found(Place::Vcpu { vcpu, word: 6 }, 0));
    Hand {
        refs: [None; 3],
        typed: [None; 3],
        works: [None; 2],
        locks: [None; 2],
        ending: [None; 2],
        claimed: [None; 2],
        raised: [None; 2],
        credits: [None; 3],
        looking: [None; 2],
        cache: [None; 65],
        walk: None,
        cold: false,
        run: Some(0),
        old0: None,
        old1: None,
        turn: 0,
        acked: 0,
        ran: 0,
        steps,
    }
}

/// Domain 0 owns the frames 0 to 2, allocated and dead of type none, and frames 3 and 4 are free with the stamp 5.
/// vCPU 0 is of domain 0 and vCPU 1 of domain 1, and each has found that it runs.
pub fn opening() -> State {
    let own = Frame {
        refs: TWO - 1,
        kind: 0,
    };
    let free = Frame { refs: 5, kind: 0 };
    State {
        limit: 8,
        page_limit: [4, 2],
        vcpu_domain: [0, 1],
        clock: 20,
        pages: [3, 0],
        lives: [0; 2],
        privileges: [0; 2],
        vcpus: [[0; 38]; 2],
        frames: [own, own, own, free, free],
        map: 24,
        cells: [None; 8],
        hands: [empty_hand(0), empty_hand(1)],
    }
}

/// The small machine with these edits, or None where one of them says nothing.
pub fn edited(edits: &str) -> Option<State> {
    let mut state = opening();
    let mut maps = false;
    for text in edits.split(", ") {
        if !text.is_empty() {
            let edit = read(text)?;
            if !edit.then.is_empty() || !edits_machine(&mut state, &edit) {
                return None;
            }
            maps = maps || edit.place == Some(Place::Map { word: 0 });
        }
    }
    if !maps {
        state.map = fitting_map(&state);
    }
    Some(state)
}

/// The map that has the bits of free and raised frames.
fn fitting_map(state: &State) -> u64 {
    let mut map = 0;
    let mut frame: u64 = 0;
    for words in &state.frames {
        let mut set = is_free(words.refs);
        for hand in &state.hands {
            set = set || 0 < hand.raises(frame);
        }
        if set {
            map = with_bit(map, frame);
        }
        frame = frame.saturating_add(1);
    }
    map
}

/// Whether the edit is known.
fn edits_machine(state: &mut State, edit: &Said) -> bool {
    let (own, name) = match edit.name.strip_prefix("Other") {
        Some(name) => (1_u16, name),
        None => (0_u16, edit.name),
    };
    let of_words = edits_words(state, own, name, edit);
    match state.hands.get_mut(usize::from(own)) {
        Some(hand) => {
            let of_hand = edits_times(hand, own, name, edit)
                || edits_references(hand, name, edit)
                || edits_works(hand, name, edit)
                || edits_frames(hand, name, edit)
                || edits_walk(hand, name, edit);
            of_words || of_hand
        }
        None => false,
    }
}

/// Edits of words, some of which are of hands, too.
fn edits_words(state: &mut State, own: u16, name: &str, edit: &Said) -> bool {
    let [first, second, _, _] = edit.numbers;
    match (name, edit.place) {
        // A word by its place, and one that is found there as well.
        ("" | "Found", Some(place)) => put(state, place, first),
        ("Limit", None) => state.limit = u32::try_from(first).unwrap_or(0),
        // A frame with two references; the same, live and writable with one type count.
        ("Two", None) => put_frame(state, first, TWO, None),
        ("Writable", None) => put_frame(state, first, TWO, Some(7 * TYPE + LIVE)),
        // Frame 0 in the own work: its word, how many entries are recorded, and its type.
        ("InWork", None) => put_frame(state, 0, TWO, Some(first)),
        // Frame 0 is a live table of level 1 under the own lock, with the word last seen in its cell 0.
        ("Locked", None) => put_frame(state, 0, TWO, Some(TYPE + LIVE + LOCKED)),
        // Frame 1 is domain 1's, with two references.
        ("Foreign", None) => {
            put_frame(state, 1, OTHERS_TWO, None);
            state.pages = [2, 1];
        }
        // A page is charged and its credit in hand.
        ("Charged", None) => state.pages[0] = 4,
        // The vCPU is off, and has not found it.
        ("Off", None) => state.put_word(Place::Vcpu { vcpu: own, word: 6 }, 2),
        ("Tower", None) => put_tower(state),
        _ => return false,
    }
    true
}

/// A vCPU has found its own run word.
fn put(state: &mut State, place: Place, word: u64) {
    state.put_word(place, word);
    if let Place::Vcpu { vcpu, word: 6 } = place {
        if let Some(hand) = state.hands.get_mut(usize::from(vcpu)) {
            hand.run = Some(word);
            hand.steps[0] = Some(found(place, word));
        }
    }
}

fn put_frame(state: &mut State, frame: u64, refs: u64, kind: Option<u64>) {
    if let Some(words) = state.frames.get_mut(frame as usize) {
        words.refs = refs;
        if let Some(word) = kind {
            words.kind = word;
        }
    }
}

/// The own base is frame 0, of level 4, and its first entry leads to frame 1, of level 3, and so on to frame 3, of
/// level 1. All entries are accessed. Frame 4 is writable, with one type count.
fn put_tower(state: &mut State) {
    let mut frame: u64 = 0;
    for number in [4, 3, 2, 1, 7_u64] {
        put_frame(state, frame, TWO, Some(number * TYPE + LIVE));
        frame = frame.saturating_add(1);
    }
    state.put_word(Place::Vcpu { vcpu: 0, word: 0 }, 1);
    for table in 0..4_u64 {
        let place = Place::Cell {
            frame: table,
            index: 0,
        };
        state.put_word(place, (table + 1) * 0x1000 + 0x27);
    }
    state.page_limit[0] = 5;
    state.pages[0] = 5;
}

/// A load of the word.
fn found(place: Place, word: u64) -> Made {
    Made {
        place,
        found: word,
        left: word,
    }
}

/// Edits of what was found, and when.
fn edits_times(hand: &mut Hand, own: u16, name: &str, edit: &Said) -> bool {
    let [first, _, _, _] = edit.numbers;
    match (name, edit.place) {
        // What was found in a word: `Was` for what was found once, and what is not noted as an old word.
        ("Found" | "Was", Some(place)) => {
            append(&mut hand.steps, found(place, first));
            notes_old(hand, own, place, first);
        }
        ("Unnoted", Some(place)) => append(&mut hand.steps, found(place, first)),
        // The own run word is not known.
        ("Stopped", None) => {
            hand.run = None;
            hand.steps = [None; 64];
        }
        ("AllEmpty", None) => finds_all_empty(hand),
        ("Turn", None) => hand.turn = first,
        ("Acked", None) => hand.acked = first,
        ("Ran", None) => hand.ran = first,
        ("Cold", None) => hand.cold = true,
        // What is in the hand came there just now, or is to come there with the next step.
        ("Now", None) => comes(hand, hand.time()),
        ("Ahead", None) => comes(hand, hand.time().saturating_add(1)),
        _ => return false,
    }
    true
}

fn notes_old(hand: &mut Hand, own: u16, place: Place, found: u64) {
    match place {
        Place::Vcpu { vcpu, word: 2 } if vcpu == own => hand.old0 = Some(found),
        Place::Vcpu { vcpu, word: 3 } if vcpu == own => hand.old1 = Some(found),
        _ => {}
    }
}

/// Each word of vCPU 1 that may name a frame was found 0.
fn finds_all_empty(hand: &mut Hand) {
    for word in 0..38_u64 {
        if names_frames(word) {
            append(&mut hand.steps, found(Place::Vcpu { vcpu: 1, word }, 0));
        }
    }
}

/// What is in the hand came there after so many steps.
fn comes(hand: &mut Hand, now: u64) {
    for slot in &mut hand.works {
        if let Some(held) = slot {
            held.is.since = now;
            held.is.unmarked = now;
        }
    }
    for slot in &mut hand.locks {
        if let Some(held) = slot {
            held.is.since = now;
        }
    }
    for slot in &mut hand.ending {
        if let Some(held) = slot {
            held.is.since = now;
        }
    }
    for slot in &mut hand.claimed {
        if let Some(held) = slot {
            held.is.since = now;
        }
    }
    for slot in &mut hand.refs {
        if let Some(held) = slot {
            if let Owner::Since { .. } = held.is {
                held.is = Owner::Since { steps: now };
            }
        }
    }
    for slot in &mut hand.typed {
        if let Some(held) = slot {
            held.is.since = now;
            if let Owner::Since { .. } = held.is.owner {
                held.is.owner = Owner::Since { steps: now };
            }
        }
    }
}

fn put_typed(hand: &mut Hand, frame: u64, kind: PageType, owner: Owner, found: bool) {
    let is = Live {
        kind: Some(kind),
        owner,
        found,
        since: 0,
    };
    append(&mut hand.typed, Held { frame, is });
}

/// Edits of references: `New` for those of which no owner is known yet, `Own` and `ForeignNew` for those to a frame in
/// work, `Foreign` for those to a frame of domain 1.
fn edits_references(hand: &mut Hand, name: &str, edit: &Said) -> bool {
    let [frame, _, _, _] = edit.numbers;
    let kind = edit.kind;
    let own = Owner::Of { domain: 0 };
    let other = Owner::Of { domain: 1 };
    let new = Owner::Since { steps: 0 };
    match name {
        "Untyped" => append(&mut hand.refs, Held { frame, is: own }),
        "NewUntyped" => append(&mut hand.refs, Held { frame, is: new }),
        "Typed" => put_typed(hand, frame, kind, own, true),
        "OwnTyped" => put_typed(hand, frame, kind, own, false),
        "ForeignTyped" => put_typed(hand, frame, kind, other, true),
        "ForeignNewTyped" => put_typed(hand, frame, kind, other, false),
        "NewTyped" => put_typed(hand, frame, kind, new, false),
        _ => return false,
    }
    true
}

/// A frame in work. The step that marked it is known.
fn put_work(hand: &mut Hand, frame: u64, word: u64, recorded: u64) {
    let mut since = 0;
    if is_marked(word) {
        append(&mut hand.steps, found(Place::Kind { frame }, word));
        since = hand.time();
    }
    let is = Work {
        word,
        recorded,
        fixed: 0,
        seen: None,
        unsettled: None,
        since,
        unmarked: since,
    };
    append(&mut hand.works, Held { frame, is });
}

/// A table of level 1 under the lock, with the entry that was seen last.
fn put_lock(hand: &mut Hand, frame: u64, seen: Option<Seen>) {
    if let Some(Seen { index, word }) = seen {
        append(&mut hand.steps, found(Place::Cell { frame, index }, word));
    }
    let is = Lock {
        kind: PageType::L1,
        owner: Owner::Of { domain: 0 },
        seen,
        since: 0,
    };
    append(&mut hand.locks, Held { frame, is });
}

/// Edits of frames that come into work, or under a lock.
fn edits_works(hand: &mut Hand, name: &str, edit: &Said) -> bool {
    let [first, second, third, _] = edit.numbers;
    match name {
        // The frame, its kind word and how many entries are recorded.
        "Work" => put_work(hand, first, second, third),
        "InWork" => {
            put_work(hand, 0, first, second);
            put_typed(hand, 0, edit.kind, Owner::Of { domain: 0 }, false);
        }
        "Lock" => put_lock(
            hand,
            first,
            Some(Seen {
                index: second,
                word: third,
            }),
        ),
        "BareLock" => put_lock(hand, first, None),
        "Locked" => put_lock(
            hand,
            0,
            Some(Seen {
                index: 0,
                word: first,
            }),
        ),
        // The table under the lock is noted with another type.
        "LockAs" => {
            for held in hand.locks.iter_mut().flatten() {
                held.is.kind = edit.kind;
            }
        }
        _ => return changes_work(hand, name, edit),
    }
    true
}

/// Edits of a frame that is in work.
fn changes_work(hand: &mut Hand, name: &str, edit: &Said) -> bool {
    let [frame, index, word, _] = edit.numbers;
    let now = hand.time();
    let mut noted = None;
    let mut known = false;
    for held in hand.works.iter_mut().flatten() {
        if let Some(work) = changed(held, now, name, edit) {
            known = true;
            held.is = work;
            let last = work.recorded.saturating_sub(1);
            noted = match name {
                "Seen" => Some((index, word)),
                "OpenAs" => Some((last, index)),
                _ => None,
            };
        }
    }
    if let Some((index, word)) = noted {
        append(&mut hand.steps, found(Place::Cell { frame, index }, word));
    }
    known
}

fn changed(held: &Held<Work>, now: u64, name: &str, edit: &Said) -> Option<Work> {
    let [first, second, third, _] = edit.numbers;
    let mut work = held.is;
    match name {
        // The cell that was loaded last.
        "Seen" if held.frame == first => {
            work.seen = Some(Seen {
                index: second,
                word: third,
            });
        }
        // The last recorded entry is unsettled from now on, with a word that is known of it, or from the next step on.
        "Open" if held.frame == first => {
            work.unsettled = Some(Unsettled {
                since: now,
                word: None,
            });
        }
        "OpenAs" if held.frame == first => {
            work.unsettled = Some(Unsettled {
                since: now,
                word: Some(second),
            });
        }
        "OpenAhead" => {
            let since = now.saturating_add(1);
            work.unsettled = Some(Unsettled { since, word: None });
        }
        // So many words of the descriptor page are known fixed.
        "Fixed" => work.fixed = first,
        // The frame came after so many steps.
        "Since" => work.since = first,
        _ => return None,
    }
    Some(work)
}

/// Edits of other frames, credits and translations.
fn edits_frames(hand: &mut Hand, name: &str, edit: &Said) -> bool {
    let [frame, second, _, _] = edit.numbers;
    match name {
        "Ending" => {
            let is = Ending { owner: 0, since: 0 };
            append(&mut hand.ending, Held { frame, is });
        }
        // With so many cells scrubbed.
        "Claimed" => {
            let is = Claimed {
                stamp: 5,
                scrubbed: second,
                since: 0,
            };
            append(&mut hand.claimed, Held { frame, is });
        }
        "Raised" => append(&mut hand.raised, frame),
        "Credit" | "Charged" => append(&mut hand.credits, 0),
        "ForeignCredit" => append(&mut hand.credits, 1),
        // A frame of domain 1 and the kind word that was left there.
        "Looks" => {
            let is = Looking {
                owner: 1,
                word: second,
            };
            append(&mut hand.looking, Held { frame, is });
        }
        // A translation to the frame, writable or not; and as many as a vCPU may have.
        "Cached" => caches(hand, frame, second == 1),
        "FullCache" => {
            for _ in 0..64 {
                caches(hand, 0, false);
            }
        }
        _ => return false,
    }
    true
}

fn caches(hand: &mut Hand, frame: u64, writable: bool) {
    let item = Item {
        user: false,
        page: frame,
        frame,
        writable,
        dirty: false,
    };
    append(&mut hand.cache, item);
}

const NEW_WALK: Walk = Walk {
    user: false,
    write: false,
    writable: true,
    page: 0,
    reached: [None; 5],
    touching: None,
};

/// Edits of the walk in flight, which goes from level 4 down to the table that it has reached last.
fn edits_walk(hand: &mut Hand, name: &str, edit: &Said) -> bool {
    let [table, second, word, _] = edit.numbers;
    let mut walk = hand.walk.unwrap_or(NEW_WALK);
    match name {
        "Reached" => {
            let level = match walk.reached[0] {
                Some(above) => above.level.saturating_sub(1),
                None => 4,
            };
            push(&mut walk.reached, Reached { table, level });
        }
        "ReachedAt" => push(
            &mut walk.reached,
            Reached {
                table,
                level: second,
            },
        ),
        "Touches" => {
            walk.touching = Some(Touching {
                frame: table,
                index: second,
                word,
            });
        }
        "ForWrite" => walk.write = true,
        // It goes through the user's tables.
        "OfUser" => walk.user = true,
        // It came through an entry that can't be written.
        "ReadOnly" => walk.writable = false,
        _ => return false,
    }
    hand.walk = Some(walk);
    true
}
