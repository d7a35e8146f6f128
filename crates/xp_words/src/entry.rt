ghost use Rattle.std.specs.Prelude.{◌≡◌};
ghost use Rattle.xp_words.specs.Entries.{is_bit, frame_of, fixed};

use crate::kind::PageType;

/// What an entry asks of the frame that it names.
#[derive(Clone, Copy, Debug, PartialEq, Eq)]
pub enum Demand {
    /// It is not present.
    Nothing,
    /// A present entry with a reserved bit set.
    Bad,
    /// A general reference alone.
    Read { frame: u64 },
    /// A general reference and one type count.
    Typed { frame: u64, kind: PageType },
}

/// An entry of a page table, in the processor's layout.
#[derive(Clone, Copy, Debug, PartialEq, Eq)]
pub struct Entry {
    pub word: u64,
}

impl Entry {
    /// `_PAGE_PRESENT` of Xen's `page.h`, bit 0. An entry without it asks nothing, whatever its other bits are.
    pub fn present(&self) -> bool
        ensures { result ≡ is_bit 0 self.now.word }
    {
        self.word & 1 == 1
    }

    /// `_PAGE_RW` of Xen's `page.h`, bit 1. It says something in a present entry alone.
    pub fn writable(&self) -> bool
        ensures { result ≡ is_bit 1 self.now.word }
    {
        (self.word >> 1) & 1 == 1
    }

    /// The frame number, bits 12 to 51. It may be out of the machine's range.
    pub fn frame(&self) -> u64
        ensures { result ≡ frame_of self.now.word }
    {
        (self.word >> 12) & 0xff_ffff_ffff
    }
}

/// The fixed form of a descriptor, as it may stand in a GDT or an LDT: None where it may not stand there.
#[tactic(auto, unfolding(crate::specs::Entries::fixed), using(std::proofs::lemmas::Bool::Decides::nat_tests))]
pub fn fix(word: u64) -> Option<u64>
    ensures { result ≡ fixed word }
{
    if (word >> 47) & 1 == 0 {
        Some(word)
    } else if (word >> 44) & 1 == 1 {
        Some(word + ((3 - ((word >> 45) & 3)) << 45))
    } else if (word >> 40) & 31 == 0 {
        Some(word)
    } else {
        None
    }
}
