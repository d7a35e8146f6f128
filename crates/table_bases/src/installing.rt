//! A base is set: its word is stored, the own cache flushed, and what the word named before is released.
ghost use Rattle.std.specs.Prelude.{◌≡◌, Some, None, Ok, true};
ghost use Rattle.step_maker.specs.Answers.{Serves};
ghost use Rattle.level_validate.specs.Unwinding.{own_domain};
ghost use Rattle.step_maker.specs.Holds.{FlushedSame, MayWork};
ghost use Rattle.table_words.specs.OldWords.{known_old};
ghost use Rattle.table_words.specs.declared.old_words.OldWord.TheVariants.{First};
ghost use Rattle.table_bases.specs.Asking.{base_deeds, of_base};
ghost use Rattle.table_bases.specs.Course.{FlushesBehind, InstallsBy};
ghost use Rattle.table_bases.specs.Holding.{HoldsNoMore, HoldsTop, FoundClockLow, LeavesInstalled};

use crate::words::{Base, put_base};
use flush_words::{LAST_CLOCK, flush, flush_own};
use level_release::release;
use xp_board::Port;
use xp_preempt::Preempt;
use xp_words::PageType;

/// Stores the base with the typed reference in hand, flushes the own cache, and releases what the word named before. Where the gate
/// pauses the release, the first old word names what is left.
pub(crate) fn install<P: Port>(port: &mut P, gate: &mut dyn Preempt, base: Base, new: Option<u32>)
    requires may { MayWork (P.value port.old) }
    requires holds { HoldsTop (P.value port.old) new }
    requires others { HoldsNoMore (P.value port.old) }
    requires warm { FoundClockLow (P.value port.old) }
    requires room { known_old First (P.value port.old).holdings ≡ Some 0 }
    ensures serves { Serves (P.value port.old) (P.value port.new) (of_base (own_domain (P.value port.old)) new true) (base_deeds (P.value port.old) base new (Ok tt)) }
    ensures hand { LeavesInstalled (P.value port.old) (P.value port.new) }
    ensures course { InstallsBy (P.value port.old) (P.value port.new) base new (policy gate.old) (policy gate.new) }
{
    let old = put_base(port, base, new);
    flush_behind(port);
    if old == 0 {
        return;
    }
    let frame = (old - 1) as u32;
    // A pause of the release leaves the base set.
    match release(port, gate, frame, PageType::L4) {
        Ok(()) | Err(_) => {}
    }
}

// Flushes the own cache behind the store. Where the clock goes no further, the cache is emptied for its last value.
fn flush_behind<P: Port>(port: &mut P)
    requires landed { (P.value port.old).holdings.walk ≡ None }
    requires warm { FoundClockLow (P.value port.old) }
    ensures flushes { FlushesBehind (P.value port.old) (P.value port.new) }
    ensures hand { FlushedSame (P.value port.old) (P.value port.new) }
{
    match flush_own(port) {
        Ok(()) => {}
        Err(_) => {
            flush(port, LAST_CLOCK);
        }
    }
}
