//! The words of a vCPU that name its top tables.
ghost use Rattle.std.specs.Prelude.{◌≡◌, ◌≤◌, Option, Some, None};
ghost use Rattle.xp_board.specs.declared.step.Act.TheVariants.{Store};
ghost use Rattle.xp_board.specs.declared.step.StepKind.TheVariants as kinds;
ghost use Rattle.step_maker.specs.Holds.{Holds, MayWork};
ghost use Rattle.step_maker.specs.Moves.{Moves};
ghost use Rattle.table_bases.specs.Holding.{HoldsTop, base_number, base_place, came_out, naming, with_typed};

use step_maker::make;
use xp_board::{Act, Port, StepKind};
use xp_words::Place;

/// One of the two bases: that of the kernel, and that of the user, which may be none.
#[derive(Clone, Copy, Debug, PartialEq, Eq)]
pub enum Base {
    Kernel,
    User,
}

impl Base {
    // Its number among the words of a vCPU.
    fn number(self) -> u32
        ensures { result ≡ base_number self }
    {
        match self {
            Base::Kernel => 0,
            Base::User => 1,
        }
    }
}

// The word that names that frame, or none.
fn word_naming(frame: Option<u32>) -> u64
    ensures { result ≡ naming frame }
{
    match frame {
        Some(f) => u64::from(f) + 1,
        None => 0,
    }
}

/// Stores the own word, and answers what it was. The typed reference in hand goes into it, and the one to the table that it named
/// before comes out.
pub(crate) fn put_base<P: Port>(port: &mut P, base: Base, new: Option<u32>) -> u64
    requires may { MayWork (P.value port.old) }
    requires holds { HoldsTop (P.value port.old) new }
    ensures moves { Moves (P.value port.old) (P.value port.new) (base_place (P.value port.old).post.vcpu base) (Store (naming new)) kinds.Context None result }
    ensures inside { result ≤ (P.value port.old).post.machine.frames }
    ensures hand { Holds (P.value port.old) (P.value port.new) (with_typed (came_out result (P.value port.old).holdings) (P.value port.old).holdings) }
{
    let vcpu = port.vcpu();
    let word = base.number();
    let new = word_naming(new);
    make(
        port,
        Place::Vcpu { vcpu, word },
        Act::Store { new },
        StepKind::Context,
        None,
    )
}
