//! Marks that are set, and taken back.
ghost use Rattle.std.specs.Prelude.{◌≡◌, ◌≢◌, ◌<◌, ◌==◌, None, true, IfErr, MatchResult, IsTrue};
ghost use Rattle.xp_words.specs.declared.place.Place.TheVariants.{Kind};
ghost use Rattle.xp_words.specs.KindWords.{is_kind, kind_write};
ghost use Rattle.xp_board.specs.Readings.{is_partial};
ghost use Rattle.xp_board.specs.declared.step.Act.TheVariants.{Cas};
ghost use Rattle.xp_board.specs.declared.step.StepKind.TheVariants as kinds;
ghost use Rattle.step_maker.specs.Holds.{Holds, MayWork};
ghost use Rattle.step_maker.specs.Moves.{Came, Moves, found_by};
ghost use Rattle.kind_words.specs.Kinds.{looked_at};
ghost use Rattle.kept_marks.specs.Marks.{IsUnpaged, KeptFor, LeavesKept, MayLeaveKept, ServesKept, took_back, unkept_kind};

use crate::words::unkept;
use flush_words::look_life;
use kind_words::leave;
use step_maker::{exchange, own_domain};
use table_words::{OldWord, put_old};
use xp_board::{Port, StepKind};
use xp_words::{KindWord, Place};

/// Takes the `kept` mark off a partial frame by one exchange of the word that says this. Its typed reference comes into the hand. An
/// exchange that finds another word answers it, and leaves the references as they were.
pub fn take_back<P: Port>(port: &mut P, frame: u32, kind: KindWord) -> Result<(), u64>
    requires frame { frame < (P.value port.old).post.machine.frames }
    requires may { MayWork (P.value port.old) }
    requires is { IsTrue (is_kind kind) }
    requires partial { IsTrue (is_partial kind) }
    requires kept { kind.kept ≡ true }
    requires page { IsUnpaged kind }
    ensures moves { Moves (P.value port.old) (P.value port.new) (Kind frame) (Cas (kind_write kind) (kind_write (unkept_kind kind))) kinds.Kind None (found_by (kind_write kind) result) }
    ensures lost { IfErr result (λ found. found ≢ kind_write kind) }
    ensures hand { MatchResult result (λ _. Holds (P.value port.old) (P.value port.new) (took_back frame kind (P.value port.old).holdings)) (λ found. Holds (P.value port.old) (P.value port.new) (looked_at frame found (P.value port.old).holdings)) }
{
    let expected = kind.write();
    let new = unkept(kind);
    exchange(port, Place::Kind { frame }, expected, new, StepKind::Kind)
}

/// Leaves a frame of the own works partial, with its type count in its `kept` mark. Where the frame is another domain's, that domain's
/// life is looked at then: where it is dying the mark is taken back, and the first old word, which is known to name no frame, names this
/// one; unless another vCPU has taken the mark over by then. `owner`: as it is known by the reference that goes into the mark.
pub fn leave_kept<P: Port>(port: &mut P, frame: u32, kind: KindWord, owner: u16)
    requires { MayLeaveKept (P.value port.old) frame kind owner }
    ensures came { Came (P.value port.old) (P.value port.new) }
    ensures hand { LeavesKept (P.value port.old) (P.value port.new) frame kind owner }
    ensures serves { ServesKept (P.value port.old) (P.value port.new) frame owner }
    ensures course { KeptFor (P.value port.old) (P.value port.new) frame kind owner }
{
    leave(port, frame, kind);
    if owner == own_domain(port) {
        return;
    }
    if is_alive(look_life(port, owner)) {
        return;
    }
    match take_back(port, frame, kind) {
        Ok(()) => put_old(port, OldWord::First, frame),
        Err(_) => {}
    }
}

// Whether a domain with that life word is not dying.
fn is_alive(life: u64) -> bool
    ensures { result ≡ (life == 0) }
{
    life == 0
}
