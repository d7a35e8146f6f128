//! A frame whose last reference was given back becomes free.
ghost use Rattle.std.specs.Prelude.{◌≡◌, ◌/◌, ◌^◌, ◌<◌, ◌≤◌, [], length, None};
ghost use Rattle.xp_words.specs.declared.place.Place.TheVariants.{Clock, Refs, Map, Pages};
ghost use Rattle.xp_words.specs.RefWords.{ref_write};
ghost use Rattle.xp_words.specs.declared.refs.RefWord.TheVariants.{Free};
ghost use Rattle.xp_board.specs.HintSteps.{map_bit};
ghost use Rattle.xp_board.specs.Lists.{times};
ghost use Rattle.xp_board.specs.RefSteps.{one_down};
ghost use Rattle.xp_board.specs.declared.step.Act.TheVariants.{Load, Store, Add};
ghost use Rattle.xp_board.specs.declared.step.StepKind.TheVariants as kinds;
ghost use Rattle.step_maker.specs.Holds.{Holds, Same, MayWork};
ghost use Rattle.step_maker.specs.Moves.{Moves};
ghost use Rattle.frame_words.specs.Freeing.{IsEnding, IsEndingSince, raised_bit, made_free, refunded, left_free, LastOf};

use crate::rows::ONE_LESS;
use step_maker::make;
use xp_board::{Act, Port, StepKind};
use xp_words::{Place, RefWord};

/// Sets the bit of a frame that is ending in the map of free frames.
pub fn set_free_bit<P: Port>(port: &mut P, frame: u32, owner: u16) -> u64
    requires frame { frame < (P.value port.old).post.machine.frames }
    requires may { MayWork (P.value port.old) }
    requires ending { IsEnding frame owner (P.value port.old).holdings }
    requires lowered { times frame (P.value port.old).holdings.raised ≡ 0 }
    ensures moves { Moves (P.value port.old) (P.value port.new) (Map (frame / 64)) (Add (map_bit frame)) kinds.Hint None result }
    ensures hand { Holds (P.value port.old) (P.value port.new) (raised_bit frame (P.value port.old).holdings) }
{
    let by = bit_of(frame);
    make(
        port,
        Place::Map { word: frame / 64 },
        Act::Add { by },
        StepKind::Hint,
        None,
    )
}

/// Stores the free word of a frame that is ending, with a clock value that was found since.
pub fn store_free<P: Port>(port: &mut P, frame: u32, owner: u16, stamp: u64) -> u64
    requires frame { frame < (P.value port.old).post.machine.frames }
    requires may { MayWork (P.value port.old) }
    requires clock { stamp < 2 ^ 36 }
    requires ending { IsEndingSince (P.value port.old).post.machine frame owner stamp (P.value port.old).holdings }
    requires raised { 0 < times frame (P.value port.old).holdings.raised }
    ensures moves { Moves (P.value port.old) (P.value port.new) (Refs frame) (Store (ref_write (Free stamp))) kinds.Ref None result }
    ensures hand { Holds (P.value port.old) (P.value port.new) (made_free frame owner (P.value port.old).holdings) }
{
    let new = free_word(stamp);
    make(
        port,
        Place::Refs { frame },
        Act::Store { new },
        StepKind::Ref,
        None,
    )
}

/// Takes one from the pages of a domain, of which a page in hand counts without a frame.
pub fn lower_pages<P: Port>(port: &mut P, domain: u16) -> u64
    requires domain { domain < length (P.value port.old).post.machine.page_limit }
    requires may { MayWork (P.value port.old) }
    requires credit { 1 ≤ times domain (P.value port.old).holdings.credits }
    ensures moves { Moves (P.value port.old) (P.value port.new) (Pages domain) (Add one_down) kinds.Pages None result }
    ensures hand { Holds (P.value port.old) (P.value port.new) (refunded domain (P.value port.old).holdings) }
{
    make(
        port,
        Place::Pages { domain },
        Act::Add { by: ONE_LESS },
        StepKind::Pages,
        None,
    )
}

#[tactic(auto, using(crate::proofs::FreeSteps::bit_fits))]
fn bit_of(frame: u32) -> u64
    ensures { result ≡ map_bit frame }
{
    1 << (frame % 64)
}

#[tactic(auto, using(crate::proofs::FreeSteps::free_is))]
fn free_word(stamp: u64) -> u64
    requires clock { stamp < 2 ^ 36 }
    ensures { result ≡ ref_write (Free stamp) }
{
    let free = RefWord::Free { stamp };
    free.write()
}

// The owner of a frame whose word counts one reference.
#[inline(always)]
#[tactic(auto, unfolding(xp_board::specs::Readings::ref_count, xp_words::specs::RefWords::ref_read), using(std::proofs::lemmas::Bool::Decides::nat_tests))]
pub(crate) fn last_owner(word: u64) -> Option<u16>
    ensures { LastOf word result }
{
    // Most often there are more, whatever else the word says.
    if word % (1 << 26) != 1 {
        return None;
    }
    match RefWord::read(word) {
        Some(
            RefWord::Owned {
                owner,
                allocated: _,
                count,
            },
        ) if count == 1 => Some(owner),
        _ => None,
    }
}
