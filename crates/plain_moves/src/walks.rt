//! Walks of page tables, and the cache of translations.
use plain_words::{FRAMES, Hand, Item, Reached, Touching, Walk, bit_of, push, with_bit};
use xp_board::{Act, Mark};
use xp_words::Entry;

fn level_of(walk: &Walk) -> u64 {
    match walk.reached[0] {
        Some(reached) => reached.level,
        None => 0,
    }
}

/// The entry with the accessed bit, and with the dirty bit where the walk is to write through it.
pub fn touched(walk: &Walk, word: u64) -> u64 {
    let accessed = with_bit(word, 5);
    if walk.write && walk.writable && level_of(walk) == 1 {
        with_bit(accessed, 6)
    } else {
        accessed
    }
}

/// The load of a base begins a walk, where there is one.
pub fn starts(hand: &mut Hand, number: u64, mark: Option<Mark>, found: u64) {
    if 0 < found {
        let mut reached = [None; 5];
        reached[0] = Some(Reached {
            table: found - 1,
            level: 4,
        });
        hand.walk = Some(Walk {
            user: number == 1,
            write: matches!(mark, Some(Mark::Walk { write: true })),
            writable: true,
            page: 0,
            reached,
            touching: None,
        });
    }
}

/// The walk goes through an entry that has its bits: out of the machine it ends, past level 1 it is an item.
fn descends(hand: &mut Hand, walk: &Walk, word: u64) {
    let frame = Entry { word }.frame();
    if FRAMES <= frame {
        hand.walk = None;
    } else if level_of(walk) == 1 {
        hand.walk = None;
        let item = Item {
            user: walk.user,
            page: walk.page,
            frame,
            writable: walk.writable,
            dirty: bit_of(word, 6),
        };
        push(&mut hand.cache, item);
        hand.cache[64] = None;
    } else {
        let mut next = *walk;
        let below = Reached {
            table: frame,
            level: level_of(walk).saturating_sub(1),
        };
        push(&mut next.reached, below);
        next.touching = None;
        hand.walk = Some(next);
    }
}

/// The walk has loaded an entry. One that is not present ends it, and one without its bits waits for them.
pub fn loads(hand: &mut Hand, frame: u64, index: u64, found: u64) {
    let Some(before) = hand.walk else {
        return;
    };
    let mut walk = before;
    walk.page = before.page.wrapping_mul(512).wrapping_add(index);
    walk.writable = before.writable && bit_of(found, 1);
    if !bit_of(found, 0) {
        hand.walk = None;
    } else if touched(&walk, found) == found {
        descends(hand, &walk, found);
    } else {
        walk.touching = Some(Touching {
            frame,
            index,
            word: found,
        });
        hand.walk = Some(walk);
    }
}

/// A lost exchange ends the walk.
pub fn touches(hand: &mut Hand, act: Act, found: u64) {
    if let (Act::Cas { expected, new }, Some(walk)) = (act, hand.walk) {
        if found == expected {
            descends(hand, &walk, new);
        } else {
            hand.walk = None;
        }
    }
}
