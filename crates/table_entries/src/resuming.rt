//! The last recorded entry of a table that came into work partial.
ghost use Rattle.std.specs.Prelude.{◌≡◌, ◌+◌, ◌<◌, [], ℕ};
ghost use Rattle.xp_words.specs.Entries.{below};
ghost use Rattle.xp_words.specs.declared.entry.Demand.TheVariants.{Typed};
ghost use Rattle.frame_types.specs.Taking.{IsOfOther};
ghost use Rattle.step_maker.specs.Holds.{MayWork};
ghost use Rattle.table_entries.specs.Between.{FromLooks, HasFoundOther, LooksLive, TakesLast};
ghost use Rattle.table_entries.specs.Tops.{HoldsWorks, WorksAtTop};

use crate::entries::TableEntry;
use frame_types::{Taken, take_type};
use frame_words::{get_ref, look_cell, put_ref};
use kind_words::look_kind;
use pte_check::demand;
use xp_board::Port;
use xp_words::{Demand, KindWord, PageType, Stop};

/// What became of the last recorded entry of a table that came into work partial.
#[derive(Clone, Copy, Debug, PartialEq, Eq, Drop)]
pub enum Resumed {
    /// It stands as it was recorded: its frame is live, or it asks no type. Nothing was taken.
    Settled,
    /// Its frame was partial, and has been made live meanwhile. A typed reference to it is in hand, one more than the entry has.
    Taken { frame: u32 },
    /// Its frame is partial, and in the own works now, past its flush and with so many entries recorded. The entry has its type count, and
    /// an untyped reference is in hand.
    Opened { frame: u32, progress: u16 },
    /// Its frame is in the own works with its mark, and nothing of it is recorded: its flush is not to be had, and why. The entry has its
    /// type count, and an untyped reference is in hand.
    Waiting { frame: u32, stamp: u64, stop: Stop },
}

/// Looks again at the last recorded entry of the newest table in the own works, of which `at.index + 1` are recorded: its frame may
/// have been left partial. One that is not live is taken again. A refusal or a pause leaves the table as it was.
pub fn resume_entry<P: Port>(port: &mut P, at: TableEntry) -> Result<Resumed, Stop>
    requires frame { at.table < (P.value port.old).post.machine.frames }
    requires index { at.index < 512 }
    requires may { MayWork (P.value port.old) }
    requires works { WorksAtTop at.table at.kind (at.index + 1) (P.value port.old).holdings }
    requires held { HoldsWorks (P.value port.old).holdings }
    requires above { (g : ℕ) → IsOfOther g (below at.kind) (P.value port.old).holdings }
    requires looked { (P.value port.old).holdings.looking ≡ [] }
    ensures { TakesLast (P.value port.old) (P.value port.new) at.table at.index at.owner at.kind result }
{
    let word = look_cell(port, at.table, at.index);
    match demand(at.kind, at.index, word) {
        Demand::Typed { frame, kind } => {
            if is_live_there(port, frame) {
                Ok(Resumed::Settled)
            } else {
                take_again(port, at, frame, kind)
            }
        }
        _ => Ok(Resumed::Settled),
    }
}

// Whether a look finds the frame live; the machine may have no such frame.
fn is_live_there<P: Port>(port: &mut P, frame: u64) -> bool
    ensures { LooksLive (P.value port.old) (P.value port.new) frame result }
{
    if frame < u64::from(port.layout().frames) {
        let word = look_kind(port, frame as u32);
        match KindWord::read(word) {
            Some(kind) => kind.validated,
            None => false,
        }
    } else {
        false
    }
}

// The frame that the entry asks was not found live.
fn take_again<P: Port>(
    port: &mut P,
    at: TableEntry,
    frame: u64,
    want: PageType,
) -> Result<Resumed, Stop>
    requires may { MayWork (P.value port.old) }
    requires looked { HasFoundOther (P.value port.old) at.table at.index at.kind (Typed frame want) }
    ensures { FromLooks (P.value port.old) at.table at.index at.kind (Typed frame want) (λ b. TakesLast b (P.value port.new) at.table at.index at.owner at.kind result) }
{
    let frame = get_ref(port, frame, at.owner)?;
    match take_type(port, frame, at.owner, want) {
        Ok(Taken::Counted) => Ok(Resumed::Taken { frame }),
        // The entry has the type count: a frame that is partial counts one type, and has no `kept` mark beside it.
        Ok(Taken::InWork { progress, .. }) => Ok(Resumed::Opened { frame, progress }),
        Ok(Taken::Waiting { stamp, stop, .. }) => Ok(Resumed::Waiting { frame, stamp, stop }),
        Err(stop) => {
            put_ref(port, frame);
            Err(stop)
        }
    }
}
