//! Kind words of frames (page type and type count), one step each.
ghost use Rattle.std.specs.Prelude.{◌≡◌, ◌≢◌, ◌<◌, not, None, IfErr, MatchResult, IsTrue};
ghost use Rattle.xp_words.specs.declared.place.Place.TheVariants.{Kind};
ghost use Rattle.xp_words.specs.KindWords.{is_kind, kind_write};
ghost use Rattle.xp_words.specs.PageTypes.{is_none};
ghost use Rattle.xp_board.specs.Acts.{left_by};
ghost use Rattle.xp_board.specs.Hands.{refs_to};
ghost use Rattle.xp_board.specs.KindSteps.{MayDrop, begun_kind, dropped, raised_kind, resumed_kind};
ghost use Rattle.xp_board.specs.Readings.{is_live, is_dead, is_partial};
ghost use Rattle.xp_board.specs.RefSteps.{one_down};
ghost use Rattle.xp_board.specs.declared.step.Act.TheVariants.{Load, Cas, Store, Add};
ghost use Rattle.xp_board.specs.declared.step.StepKind.TheVariants as kinds;
ghost use Rattle.step_maker.specs.Holds.{Holds, Same, MayWork};
ghost use Rattle.step_maker.specs.Moves.{Moves, found_by};
ghost use Rattle.kind_words.specs.Kinds.{looked_at, counted_type, begun_work, resumed_work, MayLeave, left};

use crate::words::{begun, raised, resumed};
use step_maker::{exchange, look, make};
use xp_board::{Act, Port, StepKind};
use xp_words::{KindWord, PageType, Place};

// Minus one, modulo 2^64.
const ONE_LESS: u64 = u64::MAX;

/// Loads the kind word.
pub fn look_kind<P: Port>(port: &mut P, frame: u32) -> u64
    requires { frame < (P.value port.old).post.machine.frames }
    ensures moves { Moves (P.value port.old) (P.value port.new) (Kind frame) Load kinds.Look None result }
    ensures hand { Same (P.value port.old) (P.value port.new) }
{
    look(port, Place::Kind { frame })
}

/// Counts a type up by one exchange of the live word that says this. An untyped reference in hand becomes a typed one.
/// An exchange that finds another word answers it, and leaves the references as they were. `word`: as it was found.
#[inline(always)]
pub fn count_type<P: Port>(port: &mut P, frame: u32, kind: KindWord, word: u64) -> Result<(), u64>
    requires spelled { word ≡ kind_write kind }
    requires frame { frame < (P.value port.old).post.machine.frames }
    requires may { MayWork (P.value port.old) }
    requires is { IsTrue (is_kind kind) }
    requires live { IsTrue (is_live kind) }
    requires counted { 0 < kind.number }
    requires low { kind.number < (P.value port.old).post.machine.limit }
    requires held { 0 < refs_to frame (P.value port.old).holdings.refs }
    ensures moves { Moves (P.value port.old) (P.value port.new) (Kind frame) (Cas (kind_write kind) (kind_write (raised_kind kind))) kinds.Kind None (found_by (kind_write kind) result) }
    ensures lost { IfErr result (λ found. found ≢ kind_write kind) }
    ensures hand { MatchResult result (λ _. Holds (P.value port.old) (P.value port.new) (counted_type frame kind (P.value port.old).holdings)) (λ found. Holds (P.value port.old) (P.value port.new) (looked_at frame found (P.value port.old).holdings)) }
{
    let new = raised(kind, word);
    exchange(port, Place::Kind { frame }, word, new, StepKind::Kind)
}

/// Takes a dead frame into work for the type `want`. An untyped reference in hand becomes its type count.
pub fn begin_work<P: Port>(
    port: &mut P,
    frame: u32,
    kind: KindWord,
    want: PageType,
) -> Result<(), u64>
    requires frame { frame < (P.value port.old).post.machine.frames }
    requires may { MayWork (P.value port.old) }
    requires is { IsTrue (is_kind kind) }
    requires dead { IsTrue (is_dead kind) }
    requires wanted { IsTrue (not (is_none want)) }
    requires held { 0 < refs_to frame (P.value port.old).holdings.refs }
    ensures moves { Moves (P.value port.old) (P.value port.new) (Kind frame) (Cas (kind_write kind) (kind_write (begun_kind kind want))) kinds.Kind None (found_by (kind_write kind) result) }
    ensures lost { IfErr result (λ found. found ≢ kind_write kind) }
    ensures hand { MatchResult result (λ _. Holds (P.value port.old) (P.value port.new) (begun_work frame kind want (P.value port.old).holdings)) (λ found. Holds (P.value port.old) (P.value port.new) (looked_at frame found (P.value port.old).holdings)) }
{
    let expected = kind.write();
    let new = begun(kind, want);
    exchange(port, Place::Kind { frame }, expected, new, StepKind::Kind)
}

/// Leaves a frame of the own works with that word: live, partial, in work without its mark, or dead.
pub fn leave<P: Port>(port: &mut P, frame: u32, kind: KindWord) -> u64
    requires frame { frame < (P.value port.old).post.machine.frames }
    requires may { MayWork (P.value port.old) }
    requires leaves { MayLeave (P.value port.old) frame kind }
    ensures moves { Moves (P.value port.old) (P.value port.new) (Kind frame) (Store (kind_write kind)) kinds.Kind None result }
    ensures hand { Holds (P.value port.old) (P.value port.new) (left (P.value port.old) frame kind) }
{
    let new = kind.write();
    make(
        port,
        Place::Kind { frame },
        Act::Store { new },
        StepKind::Kind,
        None,
    )
}

/// Takes a partial frame into work again. With a `kept` mark the reference of the mark comes into the hand.
pub fn resume_work<P: Port>(port: &mut P, frame: u32, kind: KindWord) -> Result<(), u64>
    requires frame { frame < (P.value port.old).post.machine.frames }
    requires may { MayWork (P.value port.old) }
    requires is { IsTrue (is_kind kind) }
    requires partial { IsTrue (is_partial kind) }
    ensures moves { Moves (P.value port.old) (P.value port.new) (Kind frame) (Cas (kind_write kind) (kind_write (resumed_kind kind))) kinds.Kind None (found_by (kind_write kind) result) }
    ensures lost { IfErr result (λ found. found ≢ kind_write kind) }
    ensures hand { MatchResult result (λ _. Holds (P.value port.old) (P.value port.new) (resumed_work frame kind (P.value port.old).holdings)) (λ found. Holds (P.value port.old) (P.value port.new) (looked_at frame found (P.value port.old).holdings)) }
{
    let expected = kind.write();
    let new = resumed(kind);
    exchange(port, Place::Kind { frame }, expected, new, StepKind::Kind)
}

/// Gives the type count of a typed reference in hand back, whose frame is known live. It becomes an untyped one. Answers
/// the word that was found; where it counted one type the frame is closing in the hand.
pub fn lower_type<P: Port>(port: &mut P, frame: u32) -> u64
    requires frame { frame < (P.value port.old).post.machine.frames }
    requires may { MayWork (P.value port.old) }
    requires drops { MayDrop (P.value port.old).post.machine frame (P.value port.old).holdings }
    ensures moves { Moves (P.value port.old) (P.value port.new) (Kind frame) (Add one_down) kinds.Kind None result }
    ensures hand { Holds (P.value port.old) (P.value port.new) (dropped frame result (left_by (Add one_down) result) (P.value port.old).holdings) }
{
    make(
        port,
        Place::Kind { frame },
        Act::Add { by: ONE_LESS },
        StepKind::Kind,
        None,
    )
}
