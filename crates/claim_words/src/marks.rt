//! The mark of an allocated frame, taken off.
ghost use Rattle.std.specs.Prelude.{◌≡◌, ◌≢◌, ◌^◌, ◌<◌, ◌≤◌, length, true, false, None, IfOk, IfErr, MatchResult};
ghost use Rattle.xp_words.specs.declared.place.Place.TheVariants.{Refs};
ghost use Rattle.xp_words.specs.RefWords.{ref_write};
ghost use Rattle.xp_words.specs.declared.refs.RefWord.TheVariants.{Owned};
ghost use Rattle.xp_board.specs.declared.step.Act.TheVariants.{Cas};
ghost use Rattle.xp_board.specs.declared.step.StepKind.TheVariants as kinds;
ghost use Rattle.step_maker.specs.Holds.{Holds, Same, MayWork};
ghost use Rattle.step_maker.specs.Moves.{Moves, found_by};
ghost use Rattle.frame_words.specs.Refs.{MayPut, took};

use step_maker::exchange;
use xp_board::{Port, StepKind};
use xp_words::{Place, RefWord};

/// Takes the mark off an allocated frame of that owner, which is referred to so often: the reference of the mark comes into the hand. `Err` has the
/// other word that the exchange found; the hand is as before then.
pub fn clear_allocated<P: Port>(port: &mut P, frame: u32, owner: u16, count: u32) -> Result<(), u64>
    requires frame { frame < (P.value port.old).post.machine.frames }
    requires domain { owner < length (P.value port.old).post.machine.page_limit }
    requires may { MayWork (P.value port.old) }
    requires some { 1 ≤ count }
    requires below { count ≤ (P.value port.old).post.machine.limit }
    ensures moves { Moves (P.value port.old) (P.value port.new) (Refs frame) (Cas (ref_write (Owned owner true count)) (ref_write (Owned owner false count))) kinds.Ref None (found_by (ref_write (Owned owner true count)) result) }
    ensures lost { IfErr result (λ found. found ≢ ref_write (Owned owner true count)) }
    ensures hand { MatchResult result (λ _. Holds (P.value port.old) (P.value port.new) (took frame owner (P.value port.old).holdings)) (λ _. Same (P.value port.old) (P.value port.new)) }
    // It may be given back, also where the frame was closing in the hand.
    ensures gives { IfOk result (λ _. MayPut frame (P.value port.new).holdings) }
{
    let from = marked_word(owner, true, count);
    let to = marked_word(owner, false, count);
    exchange(port, Place::Refs { frame }, from, to, StepKind::Ref)
}

#[tactic(auto, unfolding(xp_words::specs::RefWords::IsRef))]
fn marked_word(owner: u16, allocated: bool, count: u32) -> u64
    requires some { 1 ≤ count }
    requires few { count < 2 ^ 26 }
    ensures { result ≡ ref_write (Owned owner allocated count) }
{
    let owned = RefWord::Owned {
        owner,
        allocated,
        count,
    };
    owned.write()
}
