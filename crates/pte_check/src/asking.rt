ghost use Rattle.std.specs.Prelude.{◌≡◌};
ghost use Rattle.xp_words.specs.Entries.{below, demand_at, is_slot};

use crate::bits::EntryBits;
use bitflags::Flags;
use xp_words::{Demand, Entry, PageType};

/// What entry `index` of a table of that type, L1 to L4, asks. The hypervisor's slots of a table of level 4 ask nothing.
#[tactic(auto, unfolding(xp_words::specs::Entries::demand_of, xp_words::specs::Entries::demand_at), using(crate::proofs::Masks::has_present, crate::proofs::Masks::has_rw, std::proofs::lemmas::Bool::Decides::nat_tests))]
pub fn demand(table: PageType, index: u16, word: u64) -> Demand
    ensures { result ≡ demand_at table index word }
{
    let bits = EntryBits(word);
    let lowest = matches!(table, PageType::L1);
    if is_slot(table, index) || !bits.contains(EntryBits::PRESENT) {
        Demand::Nothing
    } else if bits.is_reserved(table) {
        Demand::Bad
    } else if lowest && !bits.contains(EntryBits::RW) {
        Demand::Read {
            frame: Entry { word }.frame(),
        }
    } else {
        Demand::Typed {
            frame: Entry { word }.frame(),
            kind: below(table),
        }
    }
}

/// Whether that entry is one of the hypervisor's own: `ROOT_PAGETABLE_FIRST_XEN_SLOT` to `ROOT_PAGETABLE_LAST_XEN_SLOT`, which are the entries
/// 256 to 271 of a table of level 4.
pub fn is_slot(table: PageType, index: u16) -> bool
    ensures { result ≡ is_slot table index }
{
    matches!(table, PageType::L4) && 256 <= index && index < 272
}

// The type of the frames that the entries of a table name.
fn below(table: PageType) -> PageType
    ensures { result ≡ below table }
{
    match table {
        PageType::L4 => PageType::L3,
        PageType::L3 => PageType::L2,
        PageType::L2 => PageType::L1,
        _ => PageType::Writable,
    }
}
