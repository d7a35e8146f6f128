//! Reference words and machine-to-physical words, one step each.
ghost use Rattle.std.specs.Prelude.{◌≡◌, ◌≢◌, ◌+◌, ◌^◌, ◌<◌, None, IfErr, MatchResult};
ghost use Rattle.xp_words.specs.declared.place.Place.TheVariants.{Refs, M2p};
ghost use Rattle.xp_board.specs.Hands.{hand};
ghost use Rattle.xp_board.specs.RefSteps.{one_down, gave_ref};
ghost use Rattle.xp_board.specs.declared.step.Act.TheVariants.{Load, Cas, Store, Add};
ghost use Rattle.xp_board.specs.declared.step.StepKind.TheVariants as kinds;
ghost use Rattle.step_maker.specs.Holds.{Holds, Same, MayWork};
ghost use Rattle.step_maker.specs.Moves.{Moves, found_by};
ghost use Rattle.frame_words.specs.Refs.{open_word, raised_word, IsOpen, took, MayPut};

use step_maker::{exchange, look, make};
use xp_board::{Act, Port, StepKind};
use xp_words::Place;

/// What an owned reference word says.
#[derive(Clone, Copy, Debug, PartialEq, Eq, Drop)]
pub struct Open {
    pub owner: u16,
    pub allocated: bool,
    pub count: u32,
}

pub(crate) const ONE_LESS: u64 = u64::MAX;

/// Loads the reference word.
pub fn look_refs<P: Port>(port: &mut P, frame: u32) -> u64
    requires { frame < (P.value port.old).post.machine.frames }
    ensures moves { Moves (P.value port.old) (P.value port.new) (Refs frame) Load kinds.Look None result }
    ensures hand { Same (P.value port.old) (P.value port.new) }
{
    look(port, Place::Refs { frame })
}

/// Counts a reference up by one exchange of the word that says this. An exchange that finds another word answers it.
/// `word`: as it was found.
#[inline(always)]
pub fn raise_refs<P: Port>(port: &mut P, frame: u32, from: Open, word: u64) -> Result<(), u64>
    requires spelled { word ≡ open_word from }
    requires frame { frame < (P.value port.old).post.machine.frames }
    requires may { MayWork (P.value port.old) }
    requires open { IsOpen (P.value port.old).post.machine from }
    ensures moves { Moves (P.value port.old) (P.value port.new) (Refs frame) (Cas (open_word from) (raised_word from)) kinds.Ref None (found_by (open_word from) result) }
    ensures lost { IfErr result (λ found. found ≢ open_word from) }
    ensures hand { MatchResult result (λ _. Holds (P.value port.old) (P.value port.new) (took frame from.owner (P.value port.old).holdings)) (λ _. Same (P.value port.old) (P.value port.new)) }
{
    let new = raised(from, word);
    exchange(port, Place::Refs { frame }, word, new, StepKind::Ref)
}

// The word with one reference more.
#[inline(always)]
#[tactic(auto, unfolding(xp_words::specs::RefWords::ref_write))]
fn raised(from: Open, word: u64) -> u64
    requires spelled { word ≡ open_word from }
    requires small { from.count + 1 < 2 ^ 26 }
    requires owner { from.owner < 2 ^ 16 }
    ensures { result ≡ raised_word from }
{
    word + 1
}

/// Counts one down, and answers the word that was found. Where it counted one the frame ends in the hand.
pub fn lower_refs<P: Port>(port: &mut P, frame: u32) -> u64
    requires frame { frame < (P.value port.old).post.machine.frames }
    requires may { MayWork (P.value port.old) }
    requires gives { MayPut frame (P.value port.old).holdings }
    ensures moves { Moves (P.value port.old) (P.value port.new) (Refs frame) (Add one_down) kinds.Ref None result }
    ensures hand { Holds (P.value port.old) (P.value port.new) (gave_ref frame result (P.value port.old).holdings) }
{
    make(
        port,
        Place::Refs { frame },
        Act::Add { by: ONE_LESS },
        StepKind::Ref,
        None,
    )
}

/// Stores the machine-to-physical word under a reference, and answers the one that was found.
pub fn store_m2p<P: Port>(port: &mut P, frame: u32, gpfn: u64) -> u64
    requires frame { frame < (P.value port.old).post.machine.frames }
    requires may { MayWork (P.value port.old) }
    requires held { 0 < hand frame (P.value port.old).holdings }
    ensures moves { Moves (P.value port.old) (P.value port.new) (M2p frame) (Store gpfn) kinds.M2p None result }
    ensures hand { Same (P.value port.old) (P.value port.new) }
{
    make(
        port,
        Place::M2p { frame },
        Act::Store { new: gpfn },
        StepKind::M2p,
        None,
    )
}
