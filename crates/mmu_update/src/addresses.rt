//! The way by which an address leads to a table of level 1, in the own kernel's tables.
ghost use Rattle.std.specs.Prelude.{◌≡◌, ◌<◌, ◌≤◌};
ghost use Rattle.xp_words.specs.declared.reply.Refusal.TheVariants.{NotMapped};
ghost use Rattle.xp_words.specs.declared.reply.Stop.TheVariants.{Refused};
ghost use Rattle.step_maker.specs.Holds.{Rests, Same};
ghost use Rattle.mmu_update.specs.Addresses.{Descends, Leads, SawBase, next_table};

use frame_words::look_cell;
use step_maker::look;
use tlb_walks::{index_at, refused_walk};
use xp_board::Port;
use xp_words::{Entry, Place, Refusal, Stop};

// The word of a vCPU that names the kernel's top table.
const KERNEL_BASE: u32 = 0;

// The level of a top table.
const TOP: u8 = 4;

// In a refusal: there is no top table.
const NO_BASE: u8 = 5;

fn frames_of<P: Port>(port: &P) -> u32
    ensures { result ≡ (P.value port.now).post.machine.frames }
{
    port.layout().frames
}

fn unmapped(level: u8, entry: u64) -> Stop
    ensures { result ≡ Refused (NotMapped level entry) }
{
    Stop::Refused(Refusal::NotMapped { level, entry })
}

// Loads the own word that names the kernel's top table: its number and one, or 0.
fn look_base<P: Port>(port: &mut P) -> u64
    ensures moves { SawBase (P.value port.old) (P.value port.new) result }
    ensures hand { Same (P.value port.old) (P.value port.new) }
    ensures few { result ≤ (P.value port.old).post.machine.frames }
{
    let vcpu = port.vcpu();
    look(
        port,
        Place::Vcpu {
            vcpu,
            word: KERNEL_BASE,
        },
    )
}

// The frame that an entry names, of a machine with so many frames: None where it is not present or names none.
fn next_table(frames: u32, word: u64) -> Option<u32>
    ensures { result ≡ next_table frames word }
{
    let entry = Entry { word };
    if entry.present() && entry.frame() < u64::from(frames) {
        Some(entry.frame() as u32)
    } else {
        None
    }
}

// From a table of that level, 2 to 4, down to the one of level 1.
fn descend<P: Port>(port: &mut P, table: u32, level: u8, va: u64) -> Result<u32, Stop>
    requires rests { Rests (P.value port.old) }
    requires table { table < (P.value port.old).post.machine.frames }
    requires low { 2 ≤ level }
    requires high { level ≤ 4 }
    ensures path { Descends va (P.value port.new) result (P.value port.old) level table }
{
    let frames = frames_of(port);
    let word = look_cell(port, table, index_at(va, level));
    let below = match next_table(frames, word) {
        Some(frame) => frame,
        None => return Err(unmapped(level, word)),
    };
    if level == 2 {
        return Ok(below);
    }
    descend(port, below, level - 1, va)
}

/// The table of level 1 by which an address leads, found by plain loads: no bits are set in the entries, and nothing is cached.
pub(crate) fn table_at<P: Port>(port: &mut P, va: u64) -> Result<u32, Stop>
    requires rests { Rests (P.value port.old) }
    ensures leads { Leads (P.value port.old) va (P.value port.new) result }
{
    if let Some(refusal) = refused_walk(va) {
        return Err(Stop::Refused(refusal));
    }
    let base = look_base(port);
    if base == 0 {
        return Err(unmapped(NO_BASE, 0));
    }
    descend(port, (base - 1) as u32, TOP, va)
}
