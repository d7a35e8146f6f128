//! What an address says.
ghost use Rattle.std.specs.Prelude.{◌≡◌, ◌<◌, ◌≤◌};
ghost use Rattle.tlb_walks.specs.Addresses.{is_canonical, page_of, index_of, cell_index, walk_refusal, access_refusal, slot_refusal};

use pte_check::is_slot;
use xp_words::{PageType, Refusal};

// Whether bits 48 to 63 all equal bit 47.
pub(crate) fn canonical(va: u64) -> bool
    ensures { result ≡ is_canonical va }
{
    let high = va >> 47;
    high == 0 || high == 131_071
}

// Bits 12 to 47.
pub(crate) fn page_at(va: u64) -> u64
    ensures { result ≡ page_of va }
{
    (va >> 12) & 0xf_ffff_ffff
}

/// The entry by which an address leads through a table of that level, 4 at the top.
pub fn index_at(va: u64, level: u8) -> u16
    requires { level ≤ 4 }
    ensures index { result ≡ index_of va level }
    ensures few { result < 512 }
{
    let index = (va >> (3 + 9 * u32::from(level))) & 511;
    index as u16
}

// The word of its page.
pub(crate) fn word_at(va: u64) -> u16
    ensures word { result ≡ cell_index va }
    ensures few { result < 512 }
{
    let word = (va >> 3) & 511;
    word as u16
}

fn slot_of(index: u16) -> Option<Refusal>
    ensures { result ≡ slot_refusal index }
{
    if is_slot(PageType::L4, index) {
        Some(Refusal::Slot { index })
    } else {
        None
    }
}

/// Why an address leads nowhere, by its numbers alone.
pub fn refused_walk(va: u64) -> Option<Refusal>
    ensures { result ≡ walk_refusal va }
{
    if canonical(va) {
        slot_of(index_at(va, 4))
    } else {
        Some(Refusal::NonCanonical)
    }
}

// Why an access of 8 bytes is.
pub(crate) fn refused_access(va: u64) -> Option<Refusal>
    ensures { result ≡ access_refusal va }
{
    if !canonical(va) {
        return Some(Refusal::NonCanonical);
    }
    if va & 7 != 0 {
        return Some(Refusal::BadRange);
    }
    slot_of(index_at(va, 4))
}
