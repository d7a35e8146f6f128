//! What a mark or a word of the domain held is released.
ghost use Rattle.std.specs.Prelude.{IfOk, IfErr};
ghost use Rattle.step_maker.specs.Holds.{Rests};
ghost use Rattle.level_release.specs.Asking.{is_due_answer};
ghost use Rattle.domain_destroy.specs.Asking.{IsDestroyStop};
ghost use Rattle.domain_destroy.specs.Emptying.{HoldsOne, LetsGo, LetsGoHand, NamesNone};
ghost use Rattle.domain_destroy.specs.Releasing.{GoesOnDestroying, StopsOnDestroying};
ghost use Rattle.xp_preempt.specs.Gates.{Gated};

use level_release::settle;
use table_words::{OldWord, put_old};
use xp_board::Port;
use xp_preempt::Preempt;
use xp_words::Stop;

/// The only typed reference in hand is named in the first own old word, and so released as what an earlier turn left unfinished. A pause leaves what
/// is left there.
pub(crate) fn let_go<P: Port>(port: &mut P, gate: &mut dyn Preempt, frame: u32) -> Result<(), Stop>
    requires holds { HoldsOne (P.value port.old) frame }
    requires clear { NamesNone (P.value port.old) }
    ensures rests { Rests (P.value port.new) }
    ensures hand { LetsGoHand (P.value port.old) (P.value port.new) }
    ensures clear { IfOk result (λ _. NamesNone (P.value port.new)) }
    ensures serves { GoesOnDestroying (P.value port.old) (P.value port.new) result }
    ensures stops { IfErr result (λ e. StopsOnDestroying (P.value port.old) (P.value port.new) e) }
    ensures kinds { IfErr result IsDestroyStop }
    ensures course { Gated (policy gate.old) (policy gate.new) (is_due_answer result) (λ answers. LetsGo frame (P.value port.old) (P.value port.new) answers result) }
{
    put_old(port, OldWord::First, frame);
    settle(port, gate, &mut None)
}
