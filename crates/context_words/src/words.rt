//! The words of a vCPU that name frames of one type: its bases, and the pages of its GDT and LDT.
ghost use Rattle.std.specs.Prelude.{◌≡◌, ◌≤◌, ◌<◌, None};
ghost use Rattle.xp_words.specs.declared.place.Place.TheVariants.{Vcpu};
ghost use Rattle.xp_board.specs.declared.step.Act.TheVariants.{Store};
ghost use Rattle.xp_board.specs.declared.step.StepKind.TheVariants as kinds;
ghost use Rattle.step_maker.specs.Holds.{Holds, MayWork};
ghost use Rattle.step_maker.specs.Moves.{Moves};
ghost use Rattle.context_words.specs.Names.{MayPutName, naming, renamed};

use step_maker::make;
use xp_board::{Act, Port, StepKind};
use xp_words::Place;

// The word that names that frame, or none.
fn word_naming(frame: Option<u32>) -> u64
    ensures { result ≡ naming frame }
{
    match frame {
        Some(f) => u64::from(f) + 1,
        None => 0,
    }
}

/// Stores the own word of that number, and answers what it was. A typed reference to the frame that it names then goes from the hand into
/// it, and the one to the frame that it named before comes out, which is live.
pub fn put_name<P: Port>(port: &mut P, word: u32, new: Option<u32>) -> u64
    requires few { word < 38 }
    requires may { MayWork (P.value port.old) }
    requires names { MayPutName (P.value port.old) word new }
    ensures moves { Moves (P.value port.old) (P.value port.new) (Vcpu (P.value port.old).post.vcpu word) (Store (naming new)) kinds.Context None result }
    ensures inside { result ≤ (P.value port.old).post.machine.frames }
    ensures hand { Holds (P.value port.old) (P.value port.new) (renamed word result (naming new) (P.value port.old).holdings) }
{
    let vcpu = port.vcpu();
    let new = word_naming(new);
    make(
        port,
        Place::Vcpu { vcpu, word },
        Act::Store { new },
        StepKind::Context,
        None,
    )
}
