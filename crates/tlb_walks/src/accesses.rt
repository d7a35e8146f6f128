//! Accesses of a guest through its translations.
ghost use Rattle.std.specs.Prelude.{◌≡◌, ◌≢◌, ◌<◌, ◌^◌, ℕ, true, false, None, Some, IfErr, IfSome};
ghost use Rattle.xp_words.specs.Entries.{frame_of};
ghost use Rattle.xp_words.specs.Machine.{IsMachine};
ghost use Rattle.xp_words.specs.declared.place.Place.TheVariants.{Cell};
ghost use Rattle.xp_board.specs.GuestSteps.{MayRead, MayStore};
ghost use Rattle.xp_board.specs.declared.step.Act.TheVariants.{Load, Store};
ghost use Rattle.xp_board.specs.declared.step.Item.{Item};
ghost use Rattle.xp_board.specs.declared.step.StepKind.TheVariants as kinds;
ghost use Rattle.step_maker.specs.Holds.{Rests, Same};
ghost use Rattle.step_maker.specs.Moves.{Came, Moves};
ghost use Rattle.step_maker.specs.Answers.{Serves, Stops, misses};
ghost use Rattle.tlb_walks.specs.Accesses.{OneRead, OneWrite, GuestReads, ServesWrite, GuestWrites, may_serve, server};
ghost use Rattle.tlb_walks.specs.Addresses.{access_refusal, cell_index};
ghost use Rattle.tlb_walks.specs.Asking.{IsGuestReadStop, IsGuestWriteStop, of_read, of_write};
ghost use Rattle.tlb_walks.specs.Flying.{WalkReady};
ghost use Rattle.tlb_walks.specs.Guesting.{ReadMoves, ReadWalks, StoreMoves, StoreWalks};

use crate::addresses::{page_at, refused_access, word_at};
use crate::walks::walk_to;
use step_maker::make;
use xp_board::{Act, Item, Port, StepKind};
use xp_words::{Entry, Place, Refusal, Stop};

// The guest loads a word of a frame to which a translation leads.
fn load_guest<P: Port>(port: &mut P, frame: u32, index: u16) -> u64
    requires ready { WalkReady (P.value port.old) }
    requires frame { frame < (P.value port.old).post.machine.frames }
    requires index { index < 512 }
    requires cached { MayRead frame (P.value port.old).holdings }
    ensures moves { Moves (P.value port.old) (P.value port.new) (Cell frame index) Load kinds.Guest None result }
    ensures hand { Same (P.value port.old) (P.value port.new) }
{
    make(
        port,
        Place::Cell { frame, index },
        Act::Load,
        StepKind::Guest,
        None,
    )
}

// The guest stores one, through a writable translation.
fn store_guest<P: Port>(port: &mut P, frame: u32, index: u16, word: u64) -> u64
    requires ready { WalkReady (P.value port.old) }
    requires frame { frame < (P.value port.old).post.machine.frames }
    requires index { index < 512 }
    requires cached { MayStore frame (P.value port.old).holdings }
    ensures moves { Moves (P.value port.old) (P.value port.new) (Cell frame index) (Store word) kinds.Guest None result }
    ensures hand { Same (P.value port.old) (P.value port.new) }
{
    make(
        port,
        Place::Cell { frame, index },
        Act::Store { new: word },
        StepKind::Guest,
        None,
    )
}

fn serves(item: &Item, write: bool) -> bool
    ensures { result ≡ may_serve write item.now }
{
    !write || (item.writable && item.dirty)
}

// The newest translation of the page, if it serves the access.
fn serving<P: Port>(port: &P, user: bool, va: u64, write: bool) -> Option<Item>
    ensures item { result ≡ server (P.value port.now) user va write }
    ensures inside { IfSome result (λ x. x.frame < (P.value port.now).post.machine.frames) }
{
    let Some(item) = port.cached(user, page_at(va)) else {
        return None;
    };
    if serves(&item, write) {
        Some(item)
    } else {
        None
    }
}

// The frame that an entry names.
fn frame_at(entry: u64) -> u32
    requires { frame_of entry < 2 ^ 32 }
    ensures { result ≡ frame_of entry }
{
    Entry { word: entry }.frame() as u32
}

// A walk brings a translation, through which the guest then loads.
fn read_uncached<P: Port>(port: &mut P, user: bool, va: u64) -> Result<u64, Stop>
    requires ready { WalkReady (P.value port.old) }
    requires landed { (P.value port.old).holdings.walk ≡ None }
    ensures { ReadWalks (P.value port.old) (P.value port.new) user va result }
{
    match walk_to(port, user, va, false) {
        Ok(walked) => Ok(load_guest(port, frame_at(walked.entry), word_at(va))),
        Err(stop) => Err(stop),
    }
}

fn read_word<P: Port>(port: &mut P, user: bool, va: u64) -> Result<u64, Stop>
    requires ready { WalkReady (P.value port.old) }
    requires landed { (P.value port.old).holdings.walk ≡ None }
    ensures { ReadMoves (P.value port.old) (P.value port.new) user va result }
{
    if let Some(refusal) = refused_access(va) {
        return Err(Stop::Refused(refusal));
    }
    match serving(port, user, va, false) {
        Some(item) => Ok(load_guest(port, item.frame, word_at(va))),
        None => read_uncached(port, user, va),
    }
}

// The same for a store. After a walk it is refused where an entry cannot be written.
fn write_uncached<P: Port>(port: &mut P, user: bool, va: u64, val: u64) -> Result<(), Stop>
    requires ready { WalkReady (P.value port.old) }
    requires landed { (P.value port.old).holdings.walk ≡ None }
    ensures { StoreWalks (P.value port.old) (P.value port.new) user va val result }
{
    let walked = match walk_to(port, user, va, true) {
        Ok(walked) => walked,
        Err(stop) => return Err(stop),
    };
    match walked.barrier {
        Some(entry) => Err(Stop::Refused(Refusal::ReadOnly { entry })),
        None => {
            store_guest(port, frame_at(walked.entry), word_at(va), val);
            Ok(())
        }
    }
}

fn write_word<P: Port>(port: &mut P, user: bool, va: u64, val: u64) -> Result<(), Stop>
    requires ready { WalkReady (P.value port.old) }
    requires landed { (P.value port.old).holdings.walk ≡ None }
    ensures { StoreMoves (P.value port.old) (P.value port.new) user va val result }
{
    if let Some(refusal) = refused_access(va) {
        return Err(Stop::Refused(refusal));
    }
    match serving(port, user, va, true) {
        Some(item) => {
            store_guest(port, item.frame, word_at(va), val);
            Ok(())
        }
        None => write_uncached(port, user, va, val),
    }
}

/// A guest's load of the 8 bytes at the address `va`, by the user's top table or the kernel's. The newest cached translation of
/// its page serves it by one step, whatever the entries say now; where there is none it walks (see `walk`), and loads
/// through the translation that the walk brings. The vCPU itself calls it, as it calls `walk`.
///
/// Refused are, in this order: an address that is not canonical, one whose bits 0 to 2 are not 0, one in the hypervisor's
/// slots, and what the walk refuses. It pauses where the walk does.
pub fn guest_read<P: Port>(port: &mut P, user: bool, va: u64) -> Result<u64, Stop>
    requires rests { Rests (P.value port.old) }
    requires warm { (P.value port.old).holdings.cold ≡ false }
    ensures came { Came (P.value port.old) (P.value port.new) }
    ensures serves { Serves (P.value port.old) (P.value port.new) (of_read va) (misses (P.value port.old).post.machine result) }
    ensures stops { IfErr result (λ e. Stops (P.value port.old) (P.value port.new) (of_read va) e) }
    ensures kinds { IfErr result IsGuestReadStop }
    ensures course { GuestReads (P.value port.old) (P.value port.new) user va result }
    // A cached access is one step.
    ensures served { (x : Item) → access_refusal va ≡ None → server (P.value port.old) user va false ≡ Some x → OneRead (P.value port.old) (P.value port.new) x.frame (cell_index va) result }
    ensures rests { Rests (P.value port.new) }
    ensures warm { (P.value port.new).holdings.cold ≡ false }
{
    read_word(port, user, va)
}

/// A guest's store of `val` in the 8 bytes at the address `va`. The newest cached translation of its page serves it by one step
/// where it is writable and dirty; where it is not, or there is none, it walks for a write, and stores through the
/// translation that the walk brings. The vCPU itself calls it, as it calls `walk`.
///
/// Refused are the addresses that `guest_read` refuses, what the walk refuses, and a page that one of its four entries does
/// not let be written (bit 1 is 0): with the first of them, from level 4 down, as the walk loaded it. The translation of
/// such a page is cached then, for reads. It pauses where the walk does.
pub fn guest_write<P: Port>(port: &mut P, user: bool, va: u64, val: u64) -> Result<(), Stop>
    requires rests { Rests (P.value port.old) }
    requires warm { (P.value port.old).holdings.cold ≡ false }
    ensures came { Came (P.value port.old) (P.value port.new) }
    ensures serves { ServesWrite (P.value port.old) (P.value port.new) user va val result }
    ensures stops { IfErr result (λ e. Stops (P.value port.old) (P.value port.new) (of_write (P.value port.old) user va) e) }
    ensures kinds { IfErr result IsGuestWriteStop }
    ensures course { GuestWrites (P.value port.old) (P.value port.new) user va val result }
    // A cached access is one step.
    ensures served { (x : Item) → access_refusal va ≡ None → server (P.value port.old) user va true ≡ Some x → OneWrite (P.value port.old) (P.value port.new) x.frame (cell_index va) val result }
    ensures rests { Rests (P.value port.new) }
    ensures warm { (P.value port.new).holdings.cold ≡ false }
{
    write_word(port, user, va, val)
}
