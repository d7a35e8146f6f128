//! Entries of a table in the own work, which are recorded in order and shed in the other one.
ghost use Rattle.std.specs.Prelude.{◌≡◌, ◌<◌, Some};
ghost use Rattle.xp_words.specs.declared.place.Place.TheVariants.{Clock};
ghost use Rattle.xp_board.specs.declared.step.Act.TheVariants.{Load};
ghost use Rattle.xp_board.specs.declared.step.Mark.TheVariants.{Record, Shed};
ghost use Rattle.xp_board.specs.declared.step.StepKind.TheVariants as kinds;
ghost use Rattle.step_maker.specs.Holds.{Holds};
ghost use Rattle.step_maker.specs.Moves.{Moves};
ghost use Rattle.table_words.specs.Entries.{RecordsNext, ShedsLast, entry_recorded, entry_shed};

use step_maker::make;
use xp_board::{Act, Mark, Port, StepKind};
use xp_words::Place;

/// The next entry of a table in the own work, the one that was loaded last, joins the recorded ones, which then are the
/// first `upto`. What it asks goes out of the hand. Answers the clock.
pub fn record_entry<P: Port>(port: &mut P, frame: u32, upto: u16) -> u64
    requires { RecordsNext (P.value port.old).post.machine frame upto (P.value port.old).holdings }
    ensures moves { Moves (P.value port.old) (P.value port.new) Clock Load kinds.Look (Some (Record frame upto)) result }
    ensures hand { Holds (P.value port.old) (P.value port.new) (entry_recorded (P.value port.old).post.machine frame (P.value port.old).holdings) }
{
    make(
        port,
        Place::Clock,
        Act::Load,
        StepKind::Look,
        Some(Mark::Record { frame, upto }),
    )
}

/// The last recorded entry of a table in the own work, the one that was loaded last, goes back into the hand; `upto` are
/// left. Answers the clock.
pub fn shed_entry<P: Port>(port: &mut P, frame: u32, upto: u16) -> u64
    requires { ShedsLast frame upto (P.value port.old).holdings }
    ensures moves { Moves (P.value port.old) (P.value port.new) Clock Load kinds.Look (Some (Shed frame upto)) result }
    ensures hand { Holds (P.value port.old) (P.value port.new) (entry_shed (P.value port.old).post.machine frame upto (P.value port.old).holdings) }
{
    make(
        port,
        Place::Clock,
        Act::Load,
        StepKind::Look,
        Some(Mark::Shed { frame, upto }),
    )
}
