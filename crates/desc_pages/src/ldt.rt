//! The LDT of a vCPU.
ghost use Rattle.std.specs.Prelude.{◌≡◌, ◌≤◌, None};
ghost use Rattle.xp_words.specs.ContextWords.{IsLdtBase, ldt_write};
ghost use Rattle.xp_words.specs.declared.place.Place.TheVariants.{Vcpu};
ghost use Rattle.xp_board.specs.declared.step.Act.TheVariants.{Store};
ghost use Rattle.xp_board.specs.declared.step.StepKind.TheVariants as kinds;
ghost use Rattle.step_maker.specs.Holds.{MayWork, Rests, Same};
ghost use Rattle.step_maker.specs.Moves.{Moves};
ghost use Rattle.desc_pages.specs.Ldt.{LdtSet, UnnamesAll, is_bad_ldt, is_canonical, ldt_base, ldt_refusal};

use crate::words::put_page;
use step_maker::make;
use xp_board::{Act, Port, StepKind};
use xp_words::{LdtBase, Place, Refusal, Stop};

// The most entries; the pages, of 512 entries each; the first word of a vCPU that names one, and the word that says where the LDT is.
const MOST_ENTRIES: u64 = 8192;

const PAGES: u32 = 16;

const FIRST_WORD: u32 = 22;

const BASE_WORD: u32 = 7;

/// Sets the LDT of the own vCPU (`MMUEXT_SET_LDT` of `xen.h`): so many entries, at most 8,192, from that address on, which is that of a
/// page's first byte. Each of the 16 words of the LDT is made to name no frame first, the last one first, and the page that it named before is
/// given back; then the address and the number of entries are stored. No page is taken before the guest touches it.
pub fn set_ldt<P: Port>(port: &mut P, address: u64, entries: u64) -> Result<(), Stop>
    requires rests { Rests (P.value port.old) }
    ensures { LdtSet (P.value port.old) (P.value port.new) address entries result }
{
    match refusal_of(address, entries) {
        Some(refusal) => Err(Stop::Refused(refusal)),
        None => {
            unname_pages(port);
            put_base(port, base_of(address, entries));
            Ok(())
        }
    }
}

// By its numbers alone.
fn refusal_of(address: u64, entries: u64) -> Option<Refusal>
    ensures { result ≡ ldt_refusal address entries }
{
    if is_bad_ldt(address, entries) {
        Some(Refusal::BadRange)
    } else if is_canonical(address) {
        None
    } else {
        Some(Refusal::NonCanonical)
    }
}

// Too many entries, or not from the first byte of a page on.
fn is_bad_ldt(address: u64, entries: u64) -> bool
    ensures { result ≡ is_bad_ldt address entries }
{
    MOST_ENTRIES < entries || address % 4096 != 0
}

// Whether bits 48 to 63 all equal bit 47.
fn is_canonical(address: u64) -> bool
    ensures { result ≡ is_canonical address }
{
    let high = address >> 47;
    high == 0 || high == 131_071
}

// Where the LDT is: bits 12 to 47 of the address, and the number of entries.
fn base_of(address: u64, entries: u64) -> LdtBase
    requires few { entries ≤ 8192 }
    ensures base { result ≡ ldt_base address entries }
    ensures valid { IsLdtBase result }
{
    LdtBase {
        page: (address >> 12) & 0xf_ffff_ffff,
        entries: entries as u16,
    }
}

// Lets no word of the LDT name a frame, the last word first.
fn unname_pages<P: Port>(port: &mut P)
    requires rests { Rests (P.value port.old) }
    ensures { UnnamesAll (P.value port.old) (P.value port.new) 0 }
{
    let mut left = PAGES;
    while left > 0 {
        left -= 1;
        put_page(port, FIRST_WORD + left, None);
    }
}

// Stores where the own LDT is, and answers what the word was.
fn put_base<P: Port>(port: &mut P, base: LdtBase) -> u64
    requires may { MayWork (P.value port.old) }
    requires base { IsLdtBase base }
    ensures moves { Moves (P.value port.old) (P.value port.new) (Vcpu (P.value port.old).post.vcpu 7) (Store (ldt_write base)) kinds.Context None result }
    ensures hand { Same (P.value port.old) (P.value port.new) }
{
    let vcpu = port.vcpu();
    let new = base.write();
    make(
        port,
        Place::Vcpu {
            vcpu,
            word: BASE_WORD,
        },
        Act::Store { new },
        StepKind::Context,
        None,
    )
}
