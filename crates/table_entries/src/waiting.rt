//! An entry whose frame waits for a flush that is not to be had.
ghost use Rattle.step_maker.specs.Holds.{MayWork};
ghost use Rattle.table_entries.specs.Between.{FromWait, HasWaited, TakesNext};

use crate::entries::{Entered, TableEntry};
use frame_types::{leave_dead, leave_shared, leave_unsettled};
use table_words::record_entry;
use xp_board::Port;
use xp_words::{PageType, Stop};

/// The frame that the entry asks: it is in the own works, marked with that stamp. `own`: its type count is in hand. `stop` says why its
/// flush is not to be had.
#[derive(Clone, Copy)]
pub(crate) struct Late {
    pub(crate) frame: u32,
    pub(crate) want: PageType,
    pub(crate) own: bool,
    pub(crate) stamp: u64,
    pub(crate) stop: Stop,
}

// The frame is left as another holder left it; or dead, where it has no entries and the clock is at its last value; or else by the
// entry's own type count, and the entry is recorded as the last one.
pub(crate) fn wait_entry<P: Port>(port: &mut P, at: TableEntry, late: Late) -> Result<Entered, Stop>
    requires may { MayWork (P.value port.old) }
    requires waits { HasWaited (P.value port.old) at.table at.index at.owner at.kind late.frame late.want late.own late.stamp late.stop }
    ensures { FromWait (P.value port.old) at.table at.index at.owner at.kind late.frame late.want late.own late.stamp late.stop (λ b. TakesNext b (P.value port.new) at.table at.index at.owner at.kind result) }
{
    if !late.own {
        leave_shared(port, late.frame, late.want, late.stamp);
        return Err(late.stop);
    }
    if matches!(late.stop, Stop::Refused(_)) && !late.want.is_table() {
        leave_dead(port, late.frame, late.want);
        return Err(late.stop);
    }
    leave_unsettled(port, late.frame, late.want, late.stamp);
    record_entry(port, at.table, at.index + 1);
    Ok(Entered::Unsettled { stop: late.stop })
}
