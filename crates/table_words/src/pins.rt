//! Pins of live tables, by the guest's `MMUEXT_PIN_L1_TABLE` and its like.
ghost use Rattle.std.specs.Prelude.{◌≡◌, ◌≢◌, ◌<◌, None, Some, IfErr, MatchResult, IsTrue};
ghost use Rattle.xp_words.specs.declared.place.Place.TheVariants.{Kind};
ghost use Rattle.xp_words.specs.KindWords.{is_kind, kind_write};
ghost use Rattle.xp_board.specs.KindSteps.{MayPin, MayUnpin};
ghost use Rattle.xp_board.specs.Spelling.{is_kind_in};
ghost use Rattle.xp_board.specs.declared.step.Act.TheVariants.{Cas};
ghost use Rattle.xp_board.specs.declared.step.StepKind.TheVariants as kinds;
ghost use Rattle.step_maker.specs.Holds.{Holds, MayWork};
ghost use Rattle.step_maker.specs.Moves.{Moves, found_by};
ghost use Rattle.kind_words.specs.Kinds.{looked_at};
ghost use Rattle.table_words.specs.Pins.{gave_pin, pinned_kind, took_pin, unpinned_kind};

use crate::words::{pinned, unpinned};
use step_maker::exchange;
use xp_board::{Port, StepKind};
use xp_words::{KindWord, Place};

/// Pins a live table of the own domain by one exchange of the word that says this. A typed reference goes from the hand
/// into the pin. An exchange that finds another word answers it, and leaves the references as they were.
pub fn set_pin<P: Port>(port: &mut P, frame: u32, kind: KindWord) -> Result<(), u64>
    requires frame { frame < (P.value port.old).post.machine.frames }
    requires may { MayWork (P.value port.old) }
    requires is { IsTrue (is_kind kind) }
    requires fits { IsTrue (is_kind_in (P.value port.old).post.machine (Some kind)) }
    requires pins { MayPin (P.value port.old).post.machine (P.value port.old).post.vcpu frame kind (pinned_kind kind) (P.value port.old).holdings }
    ensures moves { Moves (P.value port.old) (P.value port.new) (Kind frame) (Cas (kind_write kind) (kind_write (pinned_kind kind))) kinds.Kind None (found_by (kind_write kind) result) }
    ensures lost { IfErr result (λ found. found ≢ kind_write kind) }
    ensures hand { MatchResult result (λ _. Holds (P.value port.old) (P.value port.new) (gave_pin frame kind (P.value port.old).holdings)) (λ found. Holds (P.value port.old) (P.value port.new) (looked_at frame found (P.value port.old).holdings)) }
{
    let expected = kind.write();
    let new = pinned(kind);
    exchange(port, Place::Kind { frame }, expected, new, StepKind::Kind)
}

/// Takes the pin off a live table by one exchange of the word that says this. Its typed reference comes into the hand. An
/// exchange that finds another word answers it, and leaves the references as they were.
pub fn clear_pin<P: Port>(port: &mut P, frame: u32, kind: KindWord) -> Result<(), u64>
    requires frame { frame < (P.value port.old).post.machine.frames }
    requires may { MayWork (P.value port.old) }
    requires is { IsTrue (is_kind kind) }
    requires fits { IsTrue (is_kind_in (P.value port.old).post.machine (Some kind)) }
    requires unpins { MayUnpin kind (unpinned_kind kind) }
    ensures moves { Moves (P.value port.old) (P.value port.new) (Kind frame) (Cas (kind_write kind) (kind_write (unpinned_kind kind))) kinds.Kind None (found_by (kind_write kind) result) }
    ensures lost { IfErr result (λ found. found ≢ kind_write kind) }
    ensures hand { MatchResult result (λ _. Holds (P.value port.old) (P.value port.new) (took_pin frame kind (P.value port.old).holdings)) (λ found. Holds (P.value port.old) (P.value port.new) (looked_at frame found (P.value port.old).holdings)) }
{
    let expected = kind.write();
    let new = unpinned(kind);
    exchange(port, Place::Kind { frame }, expected, new, StepKind::Kind)
}
