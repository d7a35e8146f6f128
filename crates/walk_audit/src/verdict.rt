/// What an audit finds: that the words are sound, or the first thing that breaks it. Frames, domains, vCPUs and the words of a vCPU are
/// told by their numbers, other words by their places in the image.
#[derive(Clone, Copy, Debug, PartialEq, Eq)]
pub enum Verdict {
    Sound,
    /// The word at this place is none that may stand there.
    Word { place: u64, found: u64 },
    /// The frame is in somebody's hand: in work, closing, locked or dying.
    Held { frame: u32 },
    /// Its reference count is `found`, and so many references to it are recorded.
    Refs { frame: u32, want: u64, found: u64 },
    /// The same of its type count and of typed references.
    Count { frame: u32, want: u64, found: u64 },
    /// A typed reference to it is of another type than the frame.
    OtherKind { frame: u32 },
    /// The domain's count of its pages is `found`, and it owns so many frames.
    Pages { domain: u16, want: u64, found: u64 },
    /// An entry of a page table that may not be there or leads where it may not, or a descriptor that is not fixed.
    BadEntry { frame: u32, index: u16 },
    /// A word of a vCPU names a frame that is not live, or is another domain's.
    Context { vcpu: u32, word: u8 },
    /// The word at this place has a stamp above the clock.
    Stamp { place: u64 },
    /// Something is left of a dead domain that may not be.
    Dead { domain: u16 },
    /// A word of the map of free frames, by its number: a bit is set of a frame that is not free, or that the machine has not, or the bit of a
    /// free frame is not.
    Map { word: u32 },
}
