//! Examples from the format's description.
use crate::{EntryBits, demand};
use bitflags::Flags;
use xp_words::{Demand, PageType};

#[test]
fn entries_ask_what_their_bits_say(rt: HostRuntime) {
    assert_eq!(rt;
        demand(PageType::L1, 0, 0x40003),
        Demand::Typed {
            frame: 64,
            kind: PageType::Writable
        }
    );
    assert_eq!(rt;
        demand(PageType::L1, 0, 0x40001),
        Demand::Read { frame: 64 }
    );
    assert_eq!(rt; demand(PageType::L2, 0, 0x40103), Demand::Bad);
    assert_eq!(rt; demand(PageType::L4, 0, 0x40002), Demand::Nothing);
    assert_eq!(rt; demand(PageType::L4, 256, 0x40003), Demand::Nothing);
}

#[test]
fn bits_have_names(rt: HostRuntime) {
    let bits = EntryBits(0x8000_0000_0004_0067);
    assert!(rt; bits.contains(EntryBits::NX.union(EntryBits::DIRTY)));
    assert!(rt; !bits.intersects(EntryBits::RESERVED_ABOVE));
    assert!(rt; EntryBits(0x140).is_reserved(PageType::L3));
    assert!(rt; !EntryBits(0x140).is_reserved(PageType::L1));
}

// Where Xen's `put_pte_flags` puts flags, which its headers number without the frame number between them.
fn put_pte_flags(flags: u64) -> u64 {
    ((flags & !0xfff) << 40) | (flags & 0xfff)
}

#[test]
fn bits_are_those_of_the_headers(rt: HostRuntime) {
    let named = [
        (EntryBits::PRESENT, 0x001),
        (EntryBits::RW, 0x002),
        (EntryBits::USER, 0x004),
        (EntryBits::PWT, 0x008),
        (EntryBits::PCD, 0x010),
        (EntryBits::ACCESSED, 0x020),
        (EntryBits::DIRTY, 0x040),
        (EntryBits::PSE, 0x080),
        (EntryBits::GLOBAL, 0x100),
        (EntryBits::AVAIL, 0xe00),
        (EntryBits::AVAIL_HIGH, 0x7ff << 12),
        (EntryBits::NX, 1 << 23),
    ];
    for (bits, flags) in named {
        assert_eq!(rt; bits, EntryBits(put_pte_flags(flags)));
    }
}
