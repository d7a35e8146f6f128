//! A typed reference to a live frame, given back with all that the frame holds.
ghost use Rattle.std.specs.Prelude.{◌≡◌, ◌<◌, ℕ, Some, false, if◌then◌else◌, IfErr};
ghost use Rattle.xp_words.specs.declared.reply.Pause.TheVariants.{Due};
ghost use Rattle.xp_words.specs.declared.reply.Stop.TheVariants.{Paused};
ghost use Rattle.step_maker.specs.Holds.{MayWork};
ghost use Rattle.step_maker.specs.Answers.{Serves, Stops, misses};
ghost use Rattle.table_words.specs.OldWords.{known_old};
ghost use Rattle.table_words.specs.declared.old_words.OldWord.TheVariants.{First};
ghost use Rattle.level_release.specs.Asking.{of_release};
ghost use Rattle.level_release.specs.Calls.{Releases};
ghost use Rattle.level_release.specs.Course.{ReleasesFrameBy};
ghost use Rattle.level_release.specs.Holding.{HoldsLive, LeavesUnheld};

use crate::emptying::empty;
use frame_types::{drop_plain, drop_type};
use frame_words::{look_refs, put_ref};
use partial_state::{TableWork, level_of};
use xp_board::Port;
use xp_preempt::Preempt;
use xp_words::{PageType, Stop};

/// Gives back the only typed reference in hand, to a frame that is known live with that type. Where it was the last of a table, the
/// table's entries are given back, from the highest down, and the table is dead then. The gate is asked behind each entry, but in the
/// slots that are Xen's (`ROOT_PAGETABLE_FIRST_XEN_SLOT` to `_LAST_`), and not behind a table's last. A pause leaves the rest partial,
/// and names the frame in the first old word, which is known to name none.
pub fn release<P: Port>(
    port: &mut P,
    gate: &mut dyn Preempt,
    frame: u32,
    kind: PageType,
) -> Result<(), Stop>
    requires frame { frame < (P.value port.old).post.machine.frames }
    requires may { MayWork (P.value port.old) }
    requires holds { HoldsLive (P.value port.old) frame kind }
    requires room { known_old First (P.value port.old).holdings ≡ Some 0 }
    ensures serves { (owner pages : ℕ) → Serves (P.value port.old) (P.value port.new) (of_release frame owner pages result) (misses (P.value port.old).post.machine result) }
    ensures stops { (owner pages : ℕ) → IfErr result (λ e. Stops (P.value port.old) (P.value port.new) (of_release frame owner pages result) e) }
    // What the entries of a live tree ask is live: it is paused for the gate alone.
    ensures kinds { IfErr result (λ e. e ≡ Paused Due) }
    ensures hand { LeavesUnheld (P.value port.old) (P.value port.new) frame result }
    ensures course { ReleasesFrameBy (P.value port.old) (P.value port.new) frame kind (policy gate.old) (policy gate.new) result }
{
    release_within(port, gate, frame, kind, &mut None)
}

// The same, with a gate that is asked only where less than `left` is left; where it pauses the work, `left` is what is left then.
pub(crate) fn release_within<P: Port>(
    port: &mut P,
    gate: &mut dyn Preempt,
    frame: u32,
    kind: PageType,
    left: &mut Option<u64>,
) -> Result<(), Stop>
    requires frame { frame < (P.value port.old).post.machine.frames }
    requires may { MayWork (P.value port.old) }
    requires holds { HoldsLive (P.value port.old) frame kind }
    requires room { known_old First (P.value port.old).holdings ≡ Some 0 }
    ensures { Releases (P.value port.old) (P.value port.new) frame kind left.old left.new (policy gate.old) (policy gate.new) result }
{
    if !kind.is_table() {
        drop_plain(port, frame, kind);
        return Ok(());
    }
    if drop_type(port, frame) {
        // A pause records a table in the one around it only where their owners are known.
        look_refs(port, frame);
        let table = TableWork {
            frame,
            level: level_of(kind),
            done: 0,
            own: false,
            recorded: false,
        };
        empty(port, gate, table, left)
    } else {
        put_ref(port, frame);
        Ok(())
    }
}
