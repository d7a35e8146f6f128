//! A page of the own LDT is touched.
ghost use Rattle.std.specs.Prelude.{◌≡◌, ◌<◌, ◌≤◌, ℕ, None, Some, false};
ghost use Rattle.xp_words.specs.ContextWords.{IsLdtBase};
ghost use Rattle.xp_words.specs.declared.place.Place.TheVariants.{Vcpu};
ghost use Rattle.xp_board.specs.declared.step.Act.TheVariants.{Load};
ghost use Rattle.xp_board.specs.declared.step.StepKind.TheVariants as kinds;
ghost use Rattle.step_maker.specs.Holds.{Rests, Same};
ghost use Rattle.step_maker.specs.Moves.{Moves};
ghost use Rattle.desc_pages.specs.Names.{own_domain};
ghost use Rattle.ldt_pages.specs.Touching.{FoundBase, LdtTouched, is_beyond, touch_address};

use desc_pages::{get_desc, put_page};
use step_maker::{look, own_domain};
use tlb_walks::walk;
use xp_board::Port;
use xp_words::{Entry, LdtBase, Place, Refusal, Stop};

// The word of a vCPU that says where its LDT is, and the first one that names a page of it.
const BASE_WORD: u32 = 7;

const FIRST_WORD: u32 = 22;

// Bits 48 to 63 of an address, all of which equal bit 47; and the first page in which that is set.
const HIGH_BITS: u64 = 0xffff_0000_0000_0000;

const HIGH_PAGES: u64 = 1 << 35;

/// The guest's first touch of page `page` of its LDT, from 0 up and 512 entries each: then Xen takes the page, in the fault that the touch
/// meets (`map_ldt_shadow_page`). Refused where the LDT ends before that page. One that is named already stays. Else its address, modulo
/// 2^64, is walked as a read of the kernel's; the frame to which it leads, which is to be the own domain's, is taken as a descriptor page,
/// and the word of that page names it. The vCPU itself calls it, in its turn, with nothing in hand; one that has just come to its processor
/// flushes first. The gate is not asked.
pub fn touch_ldt<P: Port>(port: &mut P, page: u64) -> Result<(), Stop>
    requires rests { Rests (P.value port.old) }
    requires warm { (P.value port.old).holdings.cold ≡ false }
    ensures { LdtTouched (P.value port.old) (P.value port.new) page result }
{
    let base = look_base(port);
    if is_beyond(base, page) {
        return Err(Stop::Refused(Refusal::BadRange));
    }
    let word = FIRST_WORD + page as u32;
    if look_word(port, word) != 0 {
        return Ok(());
    }
    let entry = walk(port, false, address_of(base, page), false)?;
    let owner = own_domain(port);
    let frame = get_desc(port, Entry { word: entry }.frame(), owner)?;
    put_page(port, word, Some(frame));
    Ok(())
}

// Loads where the own LDT is.
fn look_base<P: Port>(port: &mut P) -> LdtBase
    ensures { (word : ℕ) × FoundBase (P.value port.old) (P.value port.new) word result }
{
    match LdtBase::read(look_word(port, BASE_WORD)) {
        Some(base) => base,
        None => unreachable!("each such word says where an LDT is"),
    }
}

// Loads a word of the own vCPU: that base, or one that names a page of the LDT.
fn look_word<P: Port>(port: &mut P, word: u32) -> u64
    requires low { 7 ≤ word }
    requires few { word < 38 }
    ensures moves { Moves (P.value port.old) (P.value port.new) (Vcpu (P.value port.old).post.vcpu word) Load kinds.Look None result }
    ensures hand { Same (P.value port.old) (P.value port.new) }
{
    let vcpu = port.vcpu();
    look(port, Place::Vcpu { vcpu, word })
}

// The LDT ends before that page.
fn is_beyond(base: LdtBase, page: u64) -> bool
    requires base { IsLdtBase base }
    ensures beyond { result ≡ is_beyond page base }
    ensures few { result ≡ false → page < 16 }
{
    (u64::from(base.entries) + 511) / 512 <= page
}

// Where the page begins.
fn address_of(base: LdtBase, page: u64) -> u64
    requires base { IsLdtBase base }
    requires few { page < 16 }
    ensures { result ≡ touch_address page base }
{
    let low = base.page << 12;
    let first = if base.page < HIGH_PAGES {
        low
    } else {
        low + HIGH_BITS
    };
    first.wrapping_add(page << 12)
}
