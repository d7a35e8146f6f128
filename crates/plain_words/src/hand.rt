//! What a vCPU has in its hand. Lists have the newest first.
use crate::lists::{is_bare, times};
use crate::machine::Place;
use crate::readings::is_closing;
use xp_words::PageType;

/// How many steps a hand has room for.
pub const STEPS: u64 = 64;

/// Something of a frame that is in hand.
#[derive(Clone, Copy)]
pub struct Held<T> {
    pub frame: u64,
    pub is: T,
}

/// How the owner of a frame is known: the step that brought the reference found it, or it is what is found from
/// that number of steps on.
#[derive(Clone, Copy)]
pub enum Owner {
    Of { domain: u16 },
    Since { steps: u64 },
}

/// A typed reference: its type where that is known, and from which number of steps on what is found of it
/// counts. `found` is for one that the step that brought it found live.
#[derive(Clone, Copy)]
pub struct Live {
    pub kind: Option<PageType>,
    pub owner: Owner,
    pub found: bool,
    pub since: u64,
}

/// The entry loaded or stored last.
#[derive(Clone, Copy)]
pub struct Seen {
    pub index: u64,
    pub word: u64,
}

/// The last recorded entry, where its frame may be partial.
#[derive(Clone, Copy)]
pub struct Unsettled {
    pub since: u64,
    pub word: Option<u64>,
}

/// A frame in work or closing: since when it is here, and since when it is here unmarked.
#[derive(Clone, Copy)]
pub struct Work {
    pub word: u64,
    pub recorded: u64,
    pub fixed: u64,
    pub seen: Option<Seen>,
    pub unsettled: Option<Unsettled>,
    pub since: u64,
    pub unmarked: u64,
}

/// A table under the own entry lock.
#[derive(Clone, Copy)]
pub struct Lock {
    pub kind: PageType,
    pub owner: Owner,
    pub seen: Option<Seen>,
    pub since: u64,
}

/// A frame whose last reference was given back.
#[derive(Clone, Copy)]
pub struct Ending {
    pub owner: u16,
    pub since: u64,
}

/// A frame taken from the free ones.
#[derive(Clone, Copy)]
pub struct Claimed {
    pub stamp: u64,
    pub scrubbed: u64,
    pub since: u64,
}

/// A frame of another domain that this vCPU left `kept`, and the kind word that it left there.
#[derive(Clone, Copy)]
pub struct Looking {
    pub owner: u16,
    pub word: u64,
}

/// A table that a walk has reached.
#[derive(Clone, Copy)]
pub struct Reached {
    pub table: u64,
    pub level: u64,
}

/// An entry whose bits a walk has still to set.
#[derive(Clone, Copy)]
pub struct Touching {
    pub frame: u64,
    pub index: u64,
    pub word: u64,
}

/// A walk in flight. `page` has the indices so far.
#[derive(Clone, Copy)]
pub struct Walk {
    pub user: bool,
    pub write: bool,
    pub writable: bool,
    pub page: u64,
    pub reached: [Option<Reached>; 5],
    pub touching: Option<Touching>,
}

/// A cached translation. `page` has the four indices.
#[derive(Clone, Copy)]
pub struct Item {
    pub user: bool,
    pub page: u64,
    pub frame: u64,
    pub writable: bool,
    pub dirty: bool,
}

/// A step that was made: its word, what it found there, and what stood there right after it.
#[derive(Clone, Copy)]
pub struct Made {
    pub place: Place,
    pub found: u64,
    pub left: u64,
}

/// All that a vCPU holds. Of `steps` the number is the place in the list, the oldest first.
#[derive(Clone, Copy)]
pub struct Hand {
    pub refs: [Option<Held<Owner>>; 3],
    pub typed: [Option<Held<Live>>; 3],
    pub works: [Option<Held<Work>>; 2],
    pub locks: [Option<Held<Lock>>; 2],
    pub ending: [Option<Held<Ending>>; 2],
    pub claimed: [Option<Held<Claimed>>; 2],
    pub raised: [Option<u64>; 2],
    pub credits: [Option<u16>; 3],
    pub looking: [Option<Held<Looking>>; 2],
    pub cache: [Option<Item>; 65],
    pub walk: Option<Walk>,
    pub cold: bool,
    pub run: Option<u64>,
    pub old0: Option<u64>,
    pub old1: Option<u64>,
    pub turn: u64,
    pub acked: u64,
    pub ran: u64,
    pub steps: [Option<Made>; 64],
}

impl Hand {
    /// Untyped references.
    pub fn untyped(&self, frame: u64) -> u64 {
        times(&self.refs, frame)
    }

    /// Typed references, without the locks.
    pub fn typed_plain(&self, frame: u64) -> u64 {
        times(&self.typed, frame)
    }

    /// Typed references, locks among them.
    pub fn typed_all(&self, frame: u64) -> u64 {
        times(&self.typed, frame).saturating_add(times(&self.locks, frame))
    }

    /// All references in hand.
    pub fn all(&self, frame: u64) -> u64 {
        self.untyped(frame).saturating_add(self.typed_all(frame))
    }

    /// Frames that are ending or claimed stand in the hand alone.
    pub fn alone(&self, frame: u64) -> u64 {
        times(&self.ending, frame).saturating_add(times(&self.claimed, frame))
    }

    /// How often the frame is noted as one whose bit of the map is set.
    pub fn raises(&self, frame: u64) -> u64 {
        let mut count: u64 = 0;
        for entry in &self.raised {
            if *entry == Some(frame) {
                count = count.saturating_add(1);
            }
        }
        count
    }

    /// Pages that are counted for the domain without a frame.
    pub fn credits_of(&self, domain: u16) -> u64 {
        let mut count: u64 = 0;
        for entry in &self.credits {
            if *entry == Some(domain) {
                count = count.saturating_add(1);
            }
        }
        count
    }

    /// How many steps were made.
    pub fn time(&self) -> u64 {
        let mut count: u64 = 0;
        for slot in &self.steps {
            if slot.is_some() {
                count = count.saturating_add(1);
            }
        }
        count
    }

    /// Whether the frame is closing in the own works.
    pub fn closes(&self, frame: u64) -> bool {
        match crate::lists::newest(&self.works, frame) {
            Some(work) => is_closing(work.word),
            None => false,
        }
    }

    /// Whether an untyped reference may leave the hand: one stays where the frame is closing here.
    pub fn spares(&self, frame: u64) -> bool {
        let least = if self.closes(frame) { 2 } else { 1 };
        least <= self.untyped(frame)
    }

    /// Nothing is in hand: a cache and a walk are none of it.
    pub fn is_empty(&self) -> bool {
        is_bare(&self.refs)
            && is_bare(&self.typed)
            && is_bare(&self.works)
            && is_bare(&self.locks)
            && is_bare(&self.ending)
            && is_bare(&self.claimed)
            && is_bare(&self.raised)
            && is_bare(&self.credits)
            && is_bare(&self.looking)
    }
}
