//! The bits of a page-table entry beside the frame number.
ghost use Rattle.std.specs.Prelude.{⊤, ◌≡◌, [], ◌∷◌, codes};
ghost use Rattle.xp_words.specs.Entries.{is_lowest, is_reserved};

use bitflags::{Flag, Flags, bitflag_items};
use xp_words::PageType;

/// Bits of an entry, named as in Xen's `page.h`: `PRESENT` is its `_PAGE_PRESENT`, and so on.
#[derive(Clone, Copy, Debug, PartialEq, Eq)]
pub struct EntryBits(pub u64);

bitflag_items! {
    impl EntryBits: u64 {
        /// An entry without it asks nothing, whatever its other bits are.
        const PRESENT = 0x1;
        /// It says something in a present entry alone.
        const RW = 0x2;
        const USER = 0x4;
        const PWT = 0x8;
        const PCD = 0x10;
        const ACCESSED = 0x20;
        const DIRTY = 0x40;
        /// A large page; at level 1 it is `_PAGE_PAT`.
        const PSE = 0x80;
        const GLOBAL = 0x100;
        /// Bits 9 to 11, which are left to the guest.
        const AVAIL = 0xe00;
        /// Bits 52 to 62.
        const AVAIL_HIGH = 0x7ff0_0000_0000_0000;
        const NX = 0x8000_0000_0000_0000;
        /// What no present entry of a table of level 1 may have set.
        const RESERVED_L1 = Self::PWT.0 | Self::PCD.0 | Self::PSE.0 | Self::AVAIL_HIGH.0;
        /// The same of the levels above.
        const RESERVED_ABOVE = Self::RESERVED_L1.0 | Self::GLOBAL.0;
    }
}

impl Flags for EntryBits {
    type Bits = u64;

    ghost exact = { ⊤ };

    ghost table = { (codes "PRESENT", 0x1) ∷ (codes "RW", 0x2) ∷ (codes "USER", 0x4) ∷ (codes "PWT", 0x8) ∷ (codes "PCD", 0x10) ∷ (codes "ACCESSED", 0x20) ∷ (codes "DIRTY", 0x40) ∷ (codes "PSE", 0x80) ∷ (codes "GLOBAL", 0x100) ∷ (codes "AVAIL", 0xe00) ∷ (codes "AVAIL_HIGH", 0x7ff0_0000_0000_0000) ∷ (codes "NX", 0x8000_0000_0000_0000) ∷ (codes "RESERVED_L1", 0x7ff0_0000_0000_0098) ∷ (codes "RESERVED_ABOVE", 0x7ff0_0000_0000_0198) ∷ [] };

    ghost set_of = { λ b. b.0 };

    fn flags<'a>() -> &'a [Flag<EntryBits>] {
        EntryBits::FLAGS
    }

    fn bits(&self) -> u64 {
        self.0
    }

    fn from_bits_retain(bits: u64) -> EntryBits {
        EntryBits(bits)
    }
}

impl EntryBits {
    /// Whether a bit is set that no present entry of such a table may have.
    pub fn is_reserved(self, table: PageType) -> bool
        ensures { result ≡ is_reserved (is_lowest table) self.0 }
    {
        match table {
            PageType::L1 => self.intersects(EntryBits::RESERVED_L1),
            _ => self.intersects(EntryBits::RESERVED_ABOVE),
        }
    }
}
