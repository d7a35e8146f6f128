//! The clock, flushes and what they await, and the words of a domain.
ghost use Rattle.std.specs.Prelude.{◌≡◌, ◌≢◌, ◌+◌, ◌<◌, length, None, IfErr, MatchResult};
ghost use Rattle.xp_words.specs.declared.place.Place.TheVariants.{Clock, Life, Priv};
ghost use Rattle.xp_words.specs.Places.{flushed_of, run_of, asked_of};
ghost use Rattle.xp_board.specs.AckSteps.{after_ack};
ghost use Rattle.xp_board.specs.After.{learned_life};
ghost use Rattle.xp_board.specs.AskSteps.{MayAsk};
ghost use Rattle.xp_board.specs.Readings.{last_clock};
ghost use Rattle.xp_board.specs.declared.step.Act.TheVariants.{Load, Cas, Store, Max};
ghost use Rattle.xp_board.specs.declared.step.StepKind.TheVariants as kinds;
ghost use Rattle.step_maker.specs.Holds.{FlushedSame, Holds, Same, MayWork};
ghost use Rattle.step_maker.specs.Moves.{Moves, found_by};
ghost use Rattle.flush_words.specs.Flushing.{FlushesOwn, MayFlushTo};

use step_maker::{exchange, look, look_clock, make};
use xp_board::{Act, Port, StepKind};
use xp_words::{Place, Refusal};

// Words of a vCPU.
pub(crate) const ASKED: u32 = 4;

const FLUSHED: u32 = 5;

pub(crate) const RUN: u32 = 6;

/// The last value of the clock: it goes no further.
pub const LAST_CLOCK: u64 = 68_719_476_734;

/// Loads the word of a vCPU that says to which clock value it is flushed.
pub fn look_flushed<P: Port>(port: &mut P, vcpu: u32) -> u64
    requires { vcpu < length (P.value port.old).post.machine.vcpu_domain }
    ensures moves { Moves (P.value port.old) (P.value port.new) (flushed_of vcpu) Load kinds.Look None result }
    ensures hand { Same (P.value port.old) (P.value port.new) }
{
    look(
        port,
        Place::Vcpu {
            vcpu,
            word: FLUSHED,
        },
    )
}

/// Loads the run word of another vCPU.
pub fn look_run_of<P: Port>(port: &mut P, vcpu: u32) -> u64
    requires vcpu { vcpu < length (P.value port.old).post.machine.vcpu_domain }
    requires other { vcpu ≢ (P.value port.old).post.vcpu }
    ensures moves { Moves (P.value port.old) (P.value port.new) (run_of vcpu) Load kinds.Look None result }
    ensures hand { Same (P.value port.old) (P.value port.new) }
{
    look(port, Place::Vcpu { vcpu, word: RUN })
}

/// Loads over which domains that one has, and ever had, privilege.
pub fn look_privileges<P: Port>(port: &mut P, domain: u16) -> u64
    requires { domain < length (P.value port.old).post.machine.page_limit }
    ensures moves { Moves (P.value port.old) (P.value port.new) (Priv domain) Load kinds.Look None result }
    ensures hand { Same (P.value port.old) (P.value port.new) }
{
    look(port, Place::Priv { domain })
}

/// Loads the life word of a domain. Where the domain lives, this vCPU need not look at it again for the `kept`
/// marks that it set on that domain's frames.
pub fn look_life<P: Port>(port: &mut P, domain: u16) -> u64
    requires { domain < length (P.value port.old).post.machine.page_limit }
    ensures moves { Moves (P.value port.old) (P.value port.new) (Life domain) Load kinds.Look None result }
    ensures hand { Holds (P.value port.old) (P.value port.new) (learned_life domain result (P.value port.old).holdings) }
{
    look(port, Place::Life { domain })
}

/// Sets the clock one up by one exchange of the value `expected`. An exchange that finds another value answers
/// it, and changes nothing.
pub fn tick<P: Port>(port: &mut P, expected: u64) -> Result<(), u64>
    requires { expected < last_clock }
    ensures moves { Moves (P.value port.old) (P.value port.new) Clock (Cas expected (expected + 1)) kinds.Tick None (found_by expected result) }
    ensures lost { IfErr result (λ found. found ≢ expected) }
    ensures hand { Same (P.value port.old) (P.value port.new) }
{
    exchange(port, Place::Clock, expected, expected + 1, StepKind::Tick)
}

/// Empties the own cache and stores that it is flushed to the clock value, which was found or left since the last
/// flush.
pub fn flush<P: Port>(port: &mut P, clock: u64) -> u64
    requires { MayFlushTo (P.value port.old).post.machine clock (P.value port.old).holdings }
    ensures moves { Moves (P.value port.old) (P.value port.new) (flushed_of (P.value port.old).post.vcpu) (Store clock) kinds.Ack None result }
    ensures hand { Holds (P.value port.old) (P.value port.new) (after_ack (P.value port.old).holdings) }
{
    let vcpu = port.vcpu();
    make(
        port,
        Place::Vcpu {
            vcpu,
            word: FLUSHED,
        },
        Act::Store { new: clock },
        StepKind::Ack,
        None,
    )
}

/// Asks a vCPU to flush past the stamp. A greater stamp that was asked before stays.
pub fn ask<P: Port>(port: &mut P, vcpu: u32, stamp: u64) -> u64
    requires vcpu { vcpu < length (P.value port.old).post.machine.vcpu_domain }
    requires may { MayWork (P.value port.old) }
    requires asks { MayAsk (P.value port.old).post.machine vcpu stamp (P.value port.old).holdings }
    ensures moves { Moves (P.value port.old) (P.value port.new) (asked_of vcpu) (Max stamp) kinds.Ask None result }
    ensures hand { Same (P.value port.old) (P.value port.new) }
{
    make(
        port,
        Place::Vcpu { vcpu, word: ASKED },
        Act::Max { value: stamp },
        StepKind::Ask,
        None,
    )
}

/// Flushes the own translations to a new clock value, or to the greater one that another vCPU made meanwhile.
/// Refused where the clock is at its last value; nothing has changed then.
pub fn flush_own<P: Port>(port: &mut P) -> Result<(), Refusal>
    requires landed { (P.value port.old).holdings.walk ≡ None }
    ensures flushes { FlushesOwn (P.value port.old) (P.value port.new) result }
    ensures hand { MatchResult result (λ _. FlushedSame (P.value port.old) (P.value port.new)) (λ _. Same (P.value port.old) (P.value port.new)) }
{
    let clock = look_clock(port);
    if clock == LAST_CLOCK {
        return Err(Refusal::Clock { found: clock });
    }
    match tick(port, clock) {
        Ok(()) => {
            flush(port, clock + 1);
            Ok(())
        }
        Err(found) => {
            flush(port, found);
            Ok(())
        }
    }
}
