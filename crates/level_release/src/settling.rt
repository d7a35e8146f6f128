//! What an earlier turn left unfinished is released: the frames that the two old words of the own vCPU name.
ghost use Rattle.std.specs.Prelude.{◌≡◌, ◌<◌, ℕ, Some, None, true, false, is_some, IfOk, IfErr, IsTrue};
ghost use Rattle.xp_words.specs.KindWords.{kind_read};
ghost use Rattle.xp_board.specs.Readings.{is_partial};
ghost use Rattle.xp_board.specs.Told.{PortValue};
ghost use Rattle.step_maker.specs.Holds.{MayWork, Rests};
ghost use Rattle.step_maker.specs.Answers.{Serves, Stops, misses};
ghost use Rattle.table_releases.specs.Found.{has_recorded};
ghost use Rattle.table_words.specs.OldWords.{known_old};
ghost use Rattle.table_words.specs.declared.old_words.OldWord.{OldWord};
ghost use Rattle.table_words.specs.declared.old_words.OldWord.TheVariants.{First, Second};
ghost use Rattle.level_release.specs.Asking.{IsReleaseEnd, of_settle};
ghost use Rattle.level_release.specs.Course.{SettlesBy};
ghost use Rattle.level_release.specs.Settling.{HasTakenOld, SettledHand, SettlesWord, TookOld};

use crate::emptying::empty;
use crate::releasing::release_within;
use frame_words::{look_refs, put_ref};
use kind_words::{dead_kind, leave, look_kind, lost, read_kind, resume_work};
use partial_state::{TableWork, level_of};
use step_maker::look_clock;
use table_words::{OldWord, look_old, put_old, take_old};
use xp_board::Port;
use xp_preempt::Preempt;
use xp_words::{KindWord, Pause, Stop};

/// Releases what the own old words name: the first one, and then the second. A pause leaves what is unfinished named in one of them.
/// Afterwards both are known to name none, unless it is paused.
///
/// `left` is how much was left when the gate paused it before: behind an entry of what the first word names the gate is asked only where less than that is left.
/// Where the gate pauses it again, `left` is what is left then; once both words are settled, it is none.
pub fn settle<P: Port>(
    port: &mut P,
    gate: &mut dyn Preempt,
    left: &mut Option<u64>,
) -> Result<(), Stop>
    requires rests { Rests (P.value port.old) }
    ensures rests { Rests (P.value port.new) }
    ensures serves { (owner pages : ℕ) → Serves (P.value port.old) (P.value port.new) (of_settle owner pages result) (misses (P.value port.old).post.machine result) }
    ensures stops { (owner pages : ℕ) → IfErr result (λ e. Stops (P.value port.old) (P.value port.new) (of_settle owner pages result) e) }
    ensures kinds { IfErr result IsReleaseEnd }
    ensures hand { SettledHand (P.value port.old) (P.value port.new) }
    ensures clear { IfOk result (λ _. known_old First (P.value port.new).holdings ≡ Some 0) }
    ensures clear_too { IfOk result (λ _. known_old Second (P.value port.new).holdings ≡ Some 0) }
    ensures none { IfOk result (λ _. left.new ≡ None) }
    ensures course { SettlesBy left.old left.new (P.value port.old) (P.value port.new) (policy gate.old) (policy gate.new) result }
{
    settle_word(port, gate, OldWord::First, left)?;
    *left = None;
    settle_word(port, gate, OldWord::Second, left)
}

// What one of the words names. For the second one the first is known to name none.
fn settle_word<P: Port>(
    port: &mut P,
    gate: &mut dyn Preempt,
    which: OldWord,
    left: &mut Option<u64>,
) -> Result<(), Stop>
    requires rests { Rests (P.value port.old) }
    requires first { which ≡ Second → known_old First (P.value port.old).holdings ≡ Some 0 }
    ensures { SettlesWord (P.value port.old) (P.value port.new) which left.old left.new (policy gate.old) (policy gate.new) result }
{
    if look_old(port, which) == 0 {
        return Ok(());
    }
    let frame = (take_old(port, which) - 1) as u32;
    let found = look_kind(port, frame);
    settle_found(port, gate, frame, found, left)
}

// The frame that the word named, with its type count in hand, by its kind word that was found.
fn settle_found<P: Port>(
    port: &mut P,
    gate: &mut dyn Preempt,
    frame: u32,
    found: u64,
    left: &mut Option<u64>,
) -> Result<(), Stop>
    requires frame { frame < (P.value port.old).post.machine.frames }
    requires may { MayWork (P.value port.old) }
    requires took { HasTakenOld (P.value port.old) frame found }
    requires read { IsTrue (is_some (kind_read found)) }
    requires room { known_old First (P.value port.old).holdings ≡ Some 0 }
    ensures { (u : PortValue) (which : OldWord) → TookOld u (P.value port.old) which frame found → SettlesWord u (P.value port.new) which left.old left.new (policy gate.old) (policy gate.new) result }
{
    let kind = read_kind(found);
    if kind.validated {
        release_within(port, gate, frame, kind.kind, left)
    } else if kind.partial {
        settle_partial(port, gate, frame, kind, found, left)
    } else {
        put_old(port, OldWord::First, frame);
        Err(Stop::Paused(Pause::Busy { frame, found }))
    }
}

// It was found partial.
fn settle_partial<P: Port>(
    port: &mut P,
    gate: &mut dyn Preempt,
    frame: u32,
    kind: KindWord,
    found: u64,
    left: &mut Option<u64>,
) -> Result<(), Stop>
    requires frame { frame < (P.value port.old).post.machine.frames }
    requires may { MayWork (P.value port.old) }
    requires took { HasTakenOld (P.value port.old) frame found }
    requires read { kind_read found ≡ Some kind }
    requires partial { IsTrue (is_partial kind) }
    requires room { known_old First (P.value port.old).holdings ≡ Some 0 }
    ensures { (u : PortValue) (which : OldWord) → TookOld u (P.value port.old) which frame found → SettlesWord u (P.value port.new) which left.old left.new (policy gate.old) (policy gate.new) result }
{
    match resume_work(port, frame, kind) {
        Err(other) => {
            let stop = lost(port, frame, found, other);
            put_old(port, OldWord::First, frame);
            Err(stop)
        }
        Ok(()) if has_recorded(kind) => {
            look_refs(port, frame);
            let table = TableWork {
                frame,
                level: level_of(kind.kind),
                done: 512 - kind.progress,
                own: true,
                recorded: false,
            };
            empty(port, gate, table, left)
        }
        Ok(()) => {
            let clock = look_clock(port);
            leave(port, frame, dead_kind(kind.kind, kind.unflushed, clock));
            put_ref(port, frame);
            Ok(())
        }
    }
}

// Whether the frame is a table of which entries are recorded.
fn has_recorded(kind: KindWord) -> bool
    ensures { result ≡ has_recorded kind.kind kind }
{
    kind.kind.is_table() && kind.progress > 0
}
