//! The next entry of a table in work.
ghost use Rattle.std.specs.Prelude.{◌≡◌, ◌<◌, ℕ, []};
ghost use Rattle.xp_words.specs.Entries.{below};
ghost use Rattle.xp_words.specs.declared.entry.Demand.TheVariants.{Read, Typed};
ghost use Rattle.flush_waits.specs.Waiting.{IsKnownOwner};
ghost use Rattle.frame_types.specs.Taking.{IsOfOther};
ghost use Rattle.frame_words.specs.Refs.{MayPut};
ghost use Rattle.step_maker.specs.Holds.{MayWork};
ghost use Rattle.table_entries.specs.Between.{FromFound, FromLook, HasFound, HasLooked, TakesNext};
ghost use Rattle.table_entries.specs.Tops.{HoldsWorks, WorksNext};

use crate::waiting::{Late, wait_entry};
use frame_types::{Counting, Taken, count_live, take_looked};
use frame_words::{get_ref, look_cell, put_ref};
use pte_check::demand;
use table_words::record_entry;
use xp_board::Port;
use xp_words::{Demand, PageType, Refusal, Stop};

/// An entry of a table in the own works: the table and its type, L1 to L4; the entry's index, below 512; and the domain whose frame
/// it is to ask.
#[derive(Clone, Copy, Debug, PartialEq, Eq)]
pub struct TableEntry {
    pub table: u32,
    pub kind: PageType,
    pub index: u16,
    pub owner: u16,
}

/// What became of the next entry of a table in work.
#[derive(Clone, Copy, Debug, PartialEq, Eq, Drop)]
pub enum Entered {
    /// It is recorded: what it asks was taken, or it asks nothing.
    Recorded,
    /// It names a frame that is to be validated first. That one is in the own works now, past its flush and with so many of its
    /// entries recorded; the entry is not recorded yet. `own`: the frame's type count is in hand; else another holder has it, and
    /// an untyped reference is in hand.
    Opened {
        frame: u32,
        progress: u16,
        own: bool,
    },
    /// It is recorded as the last one. Its frame waits for a flush that is not to be had, and why.
    Unsettled {
        stop: Stop,
    },
}

/// Looks at the next entry of the newest table in the own works, and takes what it asks. Where that is to be had the entry is
/// recorded. A refusal or a pause leaves the table as it was.
pub fn take_entry<P: Port>(port: &mut P, at: TableEntry) -> Result<Entered, Stop>
    requires frame { at.table < (P.value port.old).post.machine.frames }
    requires index { at.index < 512 }
    requires may { MayWork (P.value port.old) }
    requires works { WorksNext (P.value port.old).post.machine at.table at.kind at.index (P.value port.old).holdings }
    requires known { IsKnownOwner at.table at.owner (P.value port.old).holdings }
    requires held { HoldsWorks (P.value port.old).holdings }
    // No frame in the own works is of the type that the entries ask: each is of a level above.
    requires above { (g : ℕ) → IsOfOther g (below at.kind) (P.value port.old).holdings }
    requires looked { (P.value port.old).holdings.looking ≡ [] }
    ensures { TakesNext (P.value port.old) (P.value port.new) at.table at.index at.owner at.kind result }
{
    let word = look_cell(port, at.table, at.index);
    match demand(at.kind, at.index, word) {
        Demand::Nothing => {
            record_entry(port, at.table, at.index + 1);
            Ok(Entered::Recorded)
        }
        Demand::Bad => Err(Stop::Refused(Refusal::Reserved {
            frame: at.table,
            index: at.index,
            entry: word,
        })),
        Demand::Read { frame } => take_plain(port, at, frame),
        Demand::Typed { frame, kind } => take_typed(port, at, frame, kind),
    }
}

// The entry asks a reference alone.
fn take_plain<P: Port>(port: &mut P, at: TableEntry, frame: u64) -> Result<Entered, Stop>
    requires may { MayWork (P.value port.old) }
    requires looked { HasLooked (P.value port.old) at.table at.index at.owner at.kind (Read frame) }
    ensures { FromLook (P.value port.old) at.table at.index at.owner at.kind (Read frame) (λ b. TakesNext b (P.value port.new) at.table at.index at.owner at.kind result) }
{
    get_ref(port, frame, at.owner)?;
    record_entry(port, at.table, at.index + 1);
    Ok(Entered::Recorded)
}

// The entry asks a type.
fn take_typed<P: Port>(
    port: &mut P,
    at: TableEntry,
    frame: u64,
    want: PageType,
) -> Result<Entered, Stop>
    requires may { MayWork (P.value port.old) }
    requires looked { HasLooked (P.value port.old) at.table at.index at.owner at.kind (Typed frame want) }
    ensures { FromLook (P.value port.old) at.table at.index at.owner at.kind (Typed frame want) (λ b. TakesNext b (P.value port.new) at.table at.index at.owner at.kind result) }
{
    let frame = get_ref(port, frame, at.owner)?;
    match count_live(port, frame, at.owner, want) {
        Ok(Counting::Counted) => {
            record_entry(port, at.table, at.index + 1);
            Ok(Entered::Recorded)
        }
        Ok(Counting::Found { word }) => take_found(port, at, frame, want, word),
        Err(stop) => {
            put_ref(port, frame);
            Err(stop)
        }
    }
}

// The same of a frame that is not live with that type, by the word that a look just found. Apart, as most frames are live: so the way
// above stays short where it is inlined.
#[cold]
#[inline(never)]
fn take_found<P: Port>(
    port: &mut P,
    at: TableEntry,
    frame: u32,
    want: PageType,
    word: u64,
) -> Result<Entered, Stop>
    requires frame { frame < (P.value port.old).post.machine.frames }
    requires index { at.index < 512 }
    requires may { MayWork (P.value port.old) }
    requires gives { MayPut frame (P.value port.old).holdings }
    requires finds { HasFound (P.value port.old) at.table at.index at.owner at.kind frame want word }
    ensures { FromFound (P.value port.old) at.table at.index at.owner at.kind frame want word (λ b. TakesNext b (P.value port.new) at.table at.index at.owner at.kind result) }
{
    match take_looked(port, frame, at.owner, want, word) {
        Ok(Taken::Counted) => {
            record_entry(port, at.table, at.index + 1);
            Ok(Entered::Recorded)
        }
        Ok(Taken::InWork { progress, own }) => Ok(Entered::Opened {
            frame,
            progress,
            own,
        }),
        Ok(Taken::Waiting { own, stamp, stop }) => {
            let late = Late {
                frame,
                want,
                own,
                stamp,
                stop,
            };
            wait_entry(port, at, late)
        }
        Err(stop) => {
            put_ref(port, frame);
            Err(stop)
        }
    }
}
