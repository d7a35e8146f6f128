//! Single descriptors of a live GDT or LDT, and of pages that are to become such.
ghost use Rattle.std.specs.Prelude.{◌≡◌, ◌<◌, ◌&&◌, is_some, length, Some, IsTrue};
ghost use Rattle.xp_words.specs.Entries.{fixed};
ghost use Rattle.xp_words.specs.KindWords.{kind_read};
ghost use Rattle.xp_words.specs.declared.kind.PageType.TheVariants.{Desc};
ghost use Rattle.xp_board.specs.Readings.{is_live, is_type};
ghost use Rattle.step_maker.specs.Holds.{MayWork, Rests};
ghost use Rattle.desc_pages.specs.Descriptors.{DescriptorUpdated, HoldsLent, IsDescriptorType, PutsUnder, TakesAs, descriptor_type};
ghost use Rattle.desc_pages.specs.Names.{own_domain};

use crate::pages::take_desc;
use frame_types::drop_plain;
use frame_words::{get_ref, put_ref, store_cell};
use kind_words::{look_kind, read_kind};
use step_maker::own_domain;
use writable_pages::take_page;
use xp_board::Port;
use xp_words::{KindWord, PageType, Refusal, Stop, fix};

/// Writes one descriptor (`HYPERVISOR_update_descriptor` of Xen): its machine address, which is a multiple of 8, and its 8 bytes. The frame is
/// one of the own domain. Where it was found live as a descriptor page it is taken as one; else as ordinary memory. The fixed form of the
/// descriptor is stored, and the page given back. Refused where the descriptor has none.
pub fn update_descriptor<P: Port>(port: &mut P, address: u64, word: u64) -> Result<(), Stop>
    requires rests { Rests (P.value port.old) }
    ensures { DescriptorUpdated (P.value port.old) (P.value port.new) address word result }
{
    if address % 8 != 0 {
        return Err(Stop::Refused(Refusal::BadRange));
    }
    let index = (address % 4096 / 8) as u16;
    let owner = own_domain(port);
    let frame = get_ref(port, address / 4096, owner)?;
    match fix(word) {
        None => {
            put_ref(port, frame);
            Err(Stop::Refused(Refusal::BadDescriptor { frame, index, word }))
        }
        Some(new) => store_under(port, frame, owner, index, new),
    }
}

// Stores the fixed form of a descriptor, under the reference in hand.
fn store_under<P: Port>(
    port: &mut P,
    frame: u32,
    owner: u16,
    index: u16,
    new: u64,
) -> Result<(), Stop>
    requires frame { frame < (P.value port.old).post.machine.frames }
    requires index { index < 512 }
    requires may { MayWork (P.value port.old) }
    requires own { owner ≡ own_domain (P.value port.old) }
    requires real { owner < length (P.value port.old).post.machine.page_limit }
    requires holds { HoldsLent (P.value port.old) frame owner }
    requires fixed { fixed new ≡ Some new }
    ensures { PutsUnder (P.value port.old) (P.value port.new) frame owner index new result }
{
    let want = type_for(look_kind(port, frame));
    take_as(port, frame, owner, want)?;
    store_cell(port, frame, index, new);
    drop_plain(port, frame, want);
    Ok(())
}

// A frame that was found live as a descriptor page is taken as one, and any other as ordinary memory.
fn type_for(word: u64) -> PageType
    requires { IsTrue (is_some (kind_read word)) }
    ensures { result ≡ descriptor_type word }
{
    if is_live_page(read_kind(word)) {
        PageType::Desc
    } else {
        PageType::Writable
    }
}

fn is_live_page(kind: KindWord) -> bool
    ensures { result ≡ (is_live kind && is_type kind.kind Desc) }
{
    kind.validated && kind.kind.number() == PageType::Desc.number()
}

// Takes the frame for that type, under the reference in hand.
fn take_as<P: Port>(port: &mut P, frame: u32, owner: u16, want: PageType) -> Result<(), Stop>
    requires frame { frame < (P.value port.old).post.machine.frames }
    requires may { MayWork (P.value port.old) }
    requires own { owner ≡ own_domain (P.value port.old) }
    requires real { owner < length (P.value port.old).post.machine.page_limit }
    requires holds { HoldsLent (P.value port.old) frame owner }
    requires want { IsDescriptorType want }
    ensures { TakesAs (P.value port.old) (P.value port.new) frame owner want result }
{
    match want {
        PageType::Desc => take_desc(port, frame, owner),
        _ => take_page(port, frame, owner),
    }
}
