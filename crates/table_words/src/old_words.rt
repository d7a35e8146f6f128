//! The two words of the own vCPU that name frames whose release is unfinished.
ghost use Rattle.std.specs.Prelude.{◌≡◌, ◌+◌, ◌<◌, ℕ, None, Some};
ghost use Rattle.xp_board.specs.Hands.{typed_to};
ghost use Rattle.xp_board.specs.declared.step.Act.TheVariants.{Load, Store};
ghost use Rattle.xp_board.specs.declared.step.StepKind.TheVariants as kinds;
ghost use Rattle.step_maker.specs.Holds.{Holds, MayWork};
ghost use Rattle.step_maker.specs.Moves.{Moves};
ghost use Rattle.table_words.specs.OldWords.{kept_in_old, known_old, learned_old, old_number, old_place, taken_from_old};

use step_maker::{look, make};
use xp_board::{Act, Port, StepKind};
use xp_words::Place;

/// One of the two words.
#[derive(Clone, Copy, Debug, PartialEq, Eq)]
pub enum OldWord {
    First,
    Second,
}

impl OldWord {
    // Its number among the words of a vCPU.
    fn number(self) -> u32
        ensures { result ≡ old_number self }
    {
        match self {
            OldWord::First => 2,
            OldWord::Second => 3,
        }
    }
}

/// Loads the own word: 0 where it names no frame, else the frame's number and one.
pub fn look_old<P: Port>(port: &mut P, which: OldWord) -> u64
    ensures moves { Moves (P.value port.old) (P.value port.new) (old_place (P.value port.old).post.vcpu which) Load kinds.Look None result }
    ensures hand { Holds (P.value port.old) (P.value port.new) (learned_old which result (P.value port.old).holdings) }
{
    let vcpu = port.vcpu();
    let word = which.number();
    look(port, Place::Vcpu { vcpu, word })
}

/// Names a frame in the own word, which is known to name none. A typed reference goes from the hand into it.
pub fn put_old<P: Port>(port: &mut P, which: OldWord, frame: u32)
    requires frame { frame < (P.value port.old).post.machine.frames }
    requires may { MayWork (P.value port.old) }
    requires empty { known_old which (P.value port.old).holdings ≡ Some 0 }
    requires held { 0 < typed_to frame (P.value port.old).holdings.typed }
    ensures moves { Moves (P.value port.old) (P.value port.new) (old_place (P.value port.old).post.vcpu which) (Store (frame + 1)) kinds.Context None 0 }
    ensures hand { Holds (P.value port.old) (P.value port.new) (kept_in_old which frame (P.value port.old).holdings) }
{
    let vcpu = port.vcpu();
    let word = which.number();
    let new = u64::from(frame) + 1;
    make(
        port,
        Place::Vcpu { vcpu, word },
        Act::Store { new },
        StepKind::Context,
        None,
    );
}

/// Empties the own word, and answers what it was. The typed reference to the frame that it named comes into the hand; of
/// which type that frame is the word does not say.
pub fn take_old<P: Port>(port: &mut P, which: OldWord) -> u64
    requires { MayWork (P.value port.old) }
    ensures moves { Moves (P.value port.old) (P.value port.new) (old_place (P.value port.old).post.vcpu which) (Store 0) kinds.Context None result }
    ensures own { (word : ℕ) → known_old which (P.value port.old).holdings ≡ Some word → result ≡ word }
    ensures hand { Holds (P.value port.old) (P.value port.new) (taken_from_old which result (P.value port.old).holdings) }
{
    let vcpu = port.vcpu();
    let word = which.number();
    make(
        port,
        Place::Vcpu { vcpu, word },
        Act::Store { new: 0 },
        StepKind::Context,
        None,
    )
}
