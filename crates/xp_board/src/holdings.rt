//! What a vCPU holds, as contracts see it. No value of these types is made: a running program needs the cache and the
//! walk in flight alone, and boards keep these. Lists have the newest first. A number of steps says when: it is how many steps the vCPU
//! had made by then.
use crate::step::{Item, Step};
use std::collections::LinkedList;
use xp_words::PageType;

/// A step with the word that it found.
pub struct Made {
    pub step: Step,
    /// The word before the act. What the step left follows from it and from the act.
    pub found: u64,
}

/// What the vCPU knows of the owner of a frame of which it has a reference: the step that brought the
/// reference found it, or it is what the vCPU finds from that step on.
pub enum OwnerFound {
    Of { domain: u16 },
    Since { steps: u64 },
}

/// Whether the vCPU knows that the frame of a typed reference is live: the step that brought the reference
/// found or made it so, or it is what the vCPU finds from that step on.
pub enum Liveness {
    Found,
    Since { steps: u64 },
}

/// An untyped reference in hand.
pub struct Reference {
    pub frame: u32,
    pub owner: OwnerFound,
}

/// A typed reference in hand: a general one with one type count. The type is None for what came from an
/// `old` word, which does not say it.
pub struct TypedReference {
    pub frame: u32,
    pub kind: Option<PageType>,
    pub owner: OwnerFound,
    pub live: Liveness,
}

/// The entry of a table that the vCPU loaded or stored last.
pub struct Seen {
    pub index: u16,
    pub word: u64,
}

/// The last recorded entry of a table in work, where its frame may be partial: since when, and the entry
/// itself once it was loaded.
pub struct Unsettled {
    pub since: u64,
    pub word: Option<u64>,
}

/// A frame in work, or closing: its last type count was given back and its entries still hold their frames.
/// `word` is the kind word that stands there. The first `recorded` entries hold references; the first
/// `fixed` words of a descriptor page are known to be fixed. `since` is when it came here, `unmarked` when
/// it was here and unmarked.
pub struct Work {
    pub frame: u32,
    pub word: u64,
    pub recorded: u16,
    pub fixed: u16,
    pub seen: Option<Seen>,
    pub unsettled: Option<Unsettled>,
    pub since: u64,
    pub unmarked: u64,
}

/// A live table under the own entry lock, which is one typed reference in hand.
pub struct Lock {
    pub frame: u32,
    pub kind: PageType,
    pub owner: OwnerFound,
    pub seen: Option<Seen>,
    pub since: u64,
}

/// A frame whose last reference this vCPU gave back.
pub struct Ending {
    pub frame: u32,
    pub owner: u16,
    pub since: u64,
}

/// A frame that was taken from the free ones for the own domain and is not given yet: the stamp of its free
/// word, and how many of its first cells are scrubbed.
pub struct Claimed {
    pub frame: u32,
    pub stamp: u64,
    pub scrubbed: u16,
    pub since: u64,
}

/// A frame of another domain on which this vCPU has set `kept`, with the kind word that it left there, while
/// it has not yet looked whether that domain lives.
pub struct Looking {
    pub frame: u32,
    pub owner: u16,
    pub word: u64,
}

/// A table that a walk has reached, with its level.
pub struct Reached {
    pub table: u32,
    pub level: u8,
}

/// An entry that a walk has loaded and whose accessed or dirty bit it has still to set.
pub struct Touching {
    pub frame: u32,
    pub index: u16,
    pub word: u64,
}

/// A walk in flight. `page` has the indices so far, 9 bits each; `writable` where all entries so far were.
pub struct Walk {
    pub user: bool,
    pub write: bool,
    pub writable: bool,
    pub page: u64,
    pub reached: LinkedList<Reached>,
    pub touching: Option<Touching>,
}

/// All that a vCPU holds. `credits` has a domain once for each page counted for it without a frame. `raised`
/// are frames in `ending` or `claimed` whose bit of the free map is set. `run`, `old0` and `old1` are the
/// own words as this vCPU last found or left them. `turn`, `acked` and `ran` say when its last turn began,
/// its last flush and its last Run step were made. A vCPU is cold from when it is put on a processor until
/// it has flushed.
pub struct Holdings {
    pub refs: LinkedList<Reference>,
    pub typed: LinkedList<TypedReference>,
    pub works: LinkedList<Work>,
    pub locks: LinkedList<Lock>,
    pub ending: LinkedList<Ending>,
    pub claimed: LinkedList<Claimed>,
    pub raised: LinkedList<u32>,
    pub credits: LinkedList<u16>,
    pub cache: LinkedList<Item>,
    pub walk: Option<Walk>,
    pub looking: LinkedList<Looking>,
    pub cold: bool,
    pub run: Option<u64>,
    pub old0: Option<u64>,
    pub old1: Option<u64>,
    pub turn: u64,
    pub acked: u64,
    pub ran: u64,
    pub steps: LinkedList<Made>,
}
