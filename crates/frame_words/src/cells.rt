//! Cells of frames, one step each. Both answer the word that was found.
ghost use Rattle.std.specs.Prelude.{◌<◌, None};
ghost use Rattle.xp_words.specs.declared.place.Place.TheVariants.{Cell};
ghost use Rattle.xp_board.specs.After.{learned_cell};
ghost use Rattle.xp_board.specs.declared.step.Act.TheVariants.{Load, Store};
ghost use Rattle.xp_board.specs.declared.step.StepKind.TheVariants as kinds;
ghost use Rattle.step_maker.specs.Holds.{Holds, Same, MayWork};
ghost use Rattle.step_maker.specs.Moves.{Moves};
ghost use Rattle.frame_words.specs.Cells.{IsApart, MayStoreCell};

use step_maker::{look, make};
use xp_board::{Act, Port, StepKind};
use xp_words::Place;

/// Loads a cell. What the vCPU works on there learns the word; else the hand is as before.
pub fn look_cell<P: Port>(port: &mut P, frame: u32, index: u16) -> u64
    requires frame { frame < (P.value port.old).post.machine.frames }
    requires index { index < 512 }
    ensures moves { Moves (P.value port.old) (P.value port.new) (Cell frame index) Load kinds.Look None result }
    ensures hand { Holds (P.value port.old) (P.value port.new) (learned_cell frame index result (P.value port.old).holdings) }
    ensures apart { IsApart frame (P.value port.old).holdings → Same (P.value port.old) (P.value port.new) }
{
    look(port, Place::Cell { frame, index })
}

/// Stores a cell of a frame that a typed reference in hand keeps live: any word in a writable frame, a fixed word in a descriptor page.
pub fn store_cell<P: Port>(port: &mut P, frame: u32, index: u16, word: u64) -> u64
    requires frame { frame < (P.value port.old).post.machine.frames }
    requires index { index < 512 }
    requires may { MayWork (P.value port.old) }
    requires writes { MayStoreCell (P.value port.old).post.machine frame word (P.value port.old).holdings }
    ensures moves { Moves (P.value port.old) (P.value port.new) (Cell frame index) (Store word) kinds.Cell None result }
    ensures hand { Same (P.value port.old) (P.value port.new) }
{
    make(
        port,
        Place::Cell { frame, index },
        Act::Store { new: word },
        StepKind::Cell,
        None,
    )
}
