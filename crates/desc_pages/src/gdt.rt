//! The GDT of a vCPU.
ghost use Rattle.std.specs.Prelude.{◌≡◌, ◌≤◌, ◌<◌, ℕ, length, get_or};
ghost use Rattle.step_maker.specs.Holds.{MayWork, Rests};
ghost use Rattle.desc_pages.specs.Gdt.{GaveAll, GdtSet, HoldsPages, NamesAll, TakesAll, is_bad_gdt, own_domain, page_at};

use crate::pages::get_desc;
use crate::words::put_page;
use frame_types::drop_plain;
use step_maker::own_domain;
use xp_board::Port;
use xp_words::{PageType, Refusal, Stop};

// The most entries, 512 a page (`FIRST_RESERVED_GDT_ENTRY` of `xen.h`); the pages; and the first word of a vCPU that names one.
const MOST_ENTRIES: u64 = 7168;

const PAGES: u32 = 14;

const FIRST_WORD: u32 = 8;

/// Sets the GDT of the own vCPU (`HYPERVISOR_set_gdt` of Xen): so many entries, in these frames of the own domain, 512 entries a frame. All are taken as descriptor pages
/// first; where one is not to be had, those before it are given back and the GDT stays as it is. Then each of the 14 words of the GDT, the
/// last one first, is made to name its frame, or none, and the page that it named before is given back. A frame may stand in the list more
/// than once.
pub fn set_gdt<P: Port>(port: &mut P, entries: u64, frames: &[u64]) -> Result<(), Stop>
    requires rests { Rests (P.value port.old) }
    ensures { GdtSet (P.value port.old) (P.value port.new) entries frames.now result }
{
    if is_bad_gdt(entries, frames) {
        return Err(Stop::Refused(Refusal::BadRange));
    }
    let domain = own_domain(port);
    take_pages(port, frames, domain)?;
    name_pages(port, frames);
    Ok(())
}

// By its numbers: too many entries, or another number of frames than they need.
fn is_bad_gdt(entries: u64, frames: &[u64]) -> bool
    ensures { result ≡ is_bad_gdt entries (length frames.now) }
{
    MOST_ENTRIES < entries || frames.len() as u64 != (entries + 511) / 512
}

// Takes all frames of a list as descriptor pages, or none of them.
fn take_pages<P: Port>(port: &mut P, frames: &[u64], domain: u16) -> Result<(), Stop>
    requires rests { Rests (P.value port.old) }
    requires own { domain ≡ own_domain (P.value port.old) }
    ensures { TakesAll (P.value port.old) (P.value port.new) frames.now result }
{
    for at in 0..frames.len() {
        match get_desc(port, frames[at], domain) {
            Ok(_) => {}
            Err(stop) => {
                give_pages(port, frames, at);
                return Err(stop);
            }
        }
    }
    Ok(())
}

// Gives the first of them back, so many, the newest first.
fn give_pages<P: Port>(port: &mut P, frames: &[u64], many: usize)
    requires many { many ≤ length frames.now }
    requires may { MayWork (P.value port.old) }
    requires holds { HoldsPages (P.value port.old) frames.now many }
    ensures { GaveAll (P.value port.old) (P.value port.new) frames.now many }
{
    let mut left = many;
    while left > 0 {
        left -= 1;
        drop_plain(port, frames[left] as u32, PageType::Desc);
    }
}

// Lets the words of the GDT name them, the last word first, and none behind the end of the list.
fn name_pages<P: Port>(port: &mut P, frames: &[u64])
    requires few { length frames.now ≤ 14 }
    requires may { MayWork (P.value port.old) }
    requires holds { HoldsPages (P.value port.old) frames.now (length frames.now) }
    ensures { NamesAll (P.value port.old) (P.value port.new) frames.now 0 }
{
    let mut left = PAGES;
    while left > 0 {
        left -= 1;
        put_page(port, FIRST_WORD + left, page_at(frames, left));
    }
}

// Which frame the page of that number is.
fn page_at(frames: &[u64], page: u32) -> Option<u32>
    requires few { (k : ℕ) → k < length frames.now → get_or frames.now k 0 < 65536 }
    ensures { result ≡ page_at frames.now page }
{
    match frames.get(page as usize) {
        Some(frame) => Some(*frame as u32),
        None => None,
    }
}
