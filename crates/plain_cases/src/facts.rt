//! What a step leaves, as facts of the hand of vCPU 0 and of words. Numbers of frames come first.
use crate::said::Said;
use plain_words::{Hand, State, Walk, Work, is_bare, newest, times};

/// Whether it is so after the step; no fact that is not known is.
pub fn is_left(state: &State, fact: &Said) -> bool {
    let hand = &state.hands[0];
    match fact.place {
        // A word, by its place.
        Some(place) => fact.name.is_empty() && state.word(place) == fact.numbers[0],
        None => match fact.name {
            "Looks" | "Ending" | "Claimed" | "LockSeen" => is_held(hand, fact),
            "Newest" | "Walks" | "NoWalk" | "MayWrite" | "Waits" => is_walked(hand, fact),
            "Work"
            | "Since"
            | "NoWork"
            | "Fixed"
            | "Seen"
            | "NothingSeen"
            | "Open"
            | "OpenAs"
            | "Settled" => is_worked(hand, fact),
            _ => is_known(hand, fact) || is_counted(hand, fact),
        },
    }
}

fn is_known(hand: &Hand, fact: &Said) -> bool {
    let [frame, second, _, _] = fact.numbers;
    let domain = u16::try_from(second).unwrap_or(u16::MAX);
    match fact.name {
        "Owner" => hand.knows_owner(frame, domain),
        "UnknownOwner" => !hand.knows_owner(frame, 0) && !hand.knows_owner(frame, 1),
        "Live" => hand.knows_live(frame, fact.kind),
        "NotKnownLive" => !hand.knows_live(frame, fact.kind),
        "Partial" => hand.knows_partial(frame, fact.kind),
        _ => false,
    }
}

fn is_counted(hand: &Hand, fact: &Said) -> bool {
    let [first, second, third, fourth] = fact.numbers;
    let domain = u16::try_from(first).unwrap_or(u16::MAX);
    match fact.name {
        // So many untyped references, so many typed ones, and so many locks.
        "References" => {
            hand.untyped(first) == second
                && hand.typed_plain(first) == third
                && times(&hand.locks, first) == fourth
        }
        // Neither ending nor claimed.
        "NotAlone" => hand.alone(first) == 0,
        "Raised" => hand.raises(first) == second,
        "Credits" => hand.credits_of(domain) == second,
        "LooksAtNothing" => is_bare(&hand.looking),
        "Cached" => hand.cache.iter().flatten().count() as u64 == first,
        "Cold" => hand.cold == (first == 1),
        "Run" => hand.run == Some(first),
        "Old" => hand.old0 == Some(first) && hand.old1 == Some(second),
        // When the last turn, the last flush and the last Run step were made.
        "Times" => hand.turn == first && hand.acked == second && hand.ran == third,
        _ => false,
    }
}

/// The newest of the frame that a hand has.
fn is_held(hand: &Hand, fact: &Said) -> bool {
    let [frame, second, third, _] = fact.numbers;
    match fact.name {
        "Looks" => match newest(&hand.looking, frame) {
            Some(looking) => looking.word == second && looking.owner == 1,
            None => false,
        },
        "Ending" => match newest(&hand.ending, frame) {
            Some(ending) => u64::from(ending.owner) == second && ending.since == hand.time(),
            None => false,
        },
        // With the old stamp and the number of scrubbed cells.
        "Claimed" => match newest(&hand.claimed, frame) {
            Some(claimed) => claimed.stamp == second && claimed.scrubbed == third,
            None => false,
        },
        _ => match newest(&hand.locks, frame).and_then(|lock| lock.seen) {
            Some(seen) => seen.index == second && seen.word == third,
            None => false,
        },
    }
}

fn is_walked(hand: &Hand, fact: &Said) -> bool {
    let [frame, second, third, fourth] = fact.numbers;
    match (fact.name, hand.walk) {
        ("NoWalk", None) => true,
        // All entries of the walk so far can be written.
        ("MayWrite", Some(walk)) => walk.writable == (frame == 1),
        // The table that the walk has reached last, its level, and whether the walk is of the user's tables.
        ("Walks", Some(walk)) => match walk.reached[0] {
            Some(last) => {
                let waits = walk.touching.is_some();
                last.table == frame && last.level == second && walk.user == (third == 1) && !waits
            }
            None => false,
        },
        // The walk waits for that entry of a frame.
        ("Waits", Some(walk)) => waits(&walk, frame, second, third),
        // The frame of the newest translation, and whether it is writable, dirty and of the user's tables.
        ("Newest", _) => match hand.cache[0] {
            Some(item) => {
                item.frame == frame
                    && item.writable == (second == 1)
                    && item.dirty == (third == 1)
                    && item.user == (fourth == 1)
            }
            None => false,
        },
        _ => false,
    }
}

fn waits(walk: &Walk, frame: u64, index: u64, word: u64) -> bool {
    match walk.touching {
        Some(t) => t.frame == frame && t.index == index && t.word == word,
        None => false,
    }
}

fn is_worked(hand: &Hand, fact: &Said) -> bool {
    match newest(&hand.works, fact.numbers[0]) {
        Some(work) => works_so(&work, fact),
        None => fact.name == "NoWork",
    }
}

fn works_so(work: &Work, fact: &Said) -> bool {
    let [_, second, third, _] = fact.numbers;
    match (fact.name, work.unsettled) {
        // In work, with its word and how many entries are recorded.
        ("Work", _) => work.word == second && work.recorded == third,
        // In work since so many steps, and unmarked since so many.
        ("Since", _) => work.since == second && work.unmarked == third,
        ("Fixed", _) => work.fixed == second,
        ("Seen", _) => match work.seen {
            Some(seen) => seen.index == second && seen.word == third,
            None => false,
        },
        ("NothingSeen", _) => work.seen.is_none(),
        // The last recorded entry is unsettled, with a word that is known of it or none.
        ("Open", Some(open)) => open.word.is_none(),
        ("OpenAs", Some(open)) => open.word == Some(second),
        ("Settled", None) => true,
        _ => false,
    }
}
