//! Type counts given back.
ghost use Rattle.std.specs.Prelude.{◌≡◌, ◌<◌, [], true};
ghost use Rattle.xp_words.specs.declared.place.Place.TheVariants.{Kind};
ghost use Rattle.xp_board.specs.KindSteps.{MayDrop};
ghost use Rattle.xp_board.specs.RefSteps.{one_down};
ghost use Rattle.xp_board.specs.Told.{is_telling, told_word};
ghost use Rattle.xp_board.specs.declared.step.Act.TheVariants.{Add};
ghost use Rattle.step_maker.specs.Holds.{MayWork};
ghost use Rattle.step_maker.specs.Plain.{Leaves, change};
ghost use Rattle.step_maker.specs.Answers.{Serves};
ghost use Rattle.step_maker.specs.Asked.{of_back};
ghost use Rattle.frame_types.specs.Lowering.{DropsType};

use kind_words::{counts_one, lower_type};
use xp_board::Port;

/// Gives the type count of a typed reference in hand back, whose frame is known live with any type. The reference stays in
/// hand as an untyped one. True: it was the last type count, and the frame is closing in the hand.
pub fn drop_type<P: Port>(port: &mut P, frame: u32) -> bool
    requires frame { frame < (P.value port.old).post.machine.frames }
    requires may { MayWork (P.value port.old) }
    requires drops { MayDrop (P.value port.old).post.machine frame (P.value port.old).holdings }
    ensures serves { Serves (P.value port.old) (P.value port.new) (of_back frame) [] }
    ensures drops { DropsType (P.value port.old) (P.value port.new) frame result }
    ensures plain { is_telling (P.value port.old) ≡ true → Leaves (P.value port.new) (change (Add one_down) (Kind frame) (told_word (P.value port.old))) }
{
    counts_one(lower_type(port, frame))
}
