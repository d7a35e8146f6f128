//! New bases.
ghost use Rattle.std.specs.Prelude.{◌≡◌, ◌<◌, Some, None, IfErr};
ghost use Rattle.step_maker.specs.Holds.{Rests};
ghost use Rattle.step_maker.specs.Moves.{Came};
ghost use Rattle.table_words.specs.OldWords.{known_old};
ghost use Rattle.table_words.specs.declared.old_words.OldWord.TheVariants.{First};
ghost use Rattle.table_bases.specs.Asking.{IsBaseStop, LeavesBase, ServesBase, StopsBase, user_frame};
ghost use Rattle.table_bases.specs.Course.{MeetsBase, SetsBaseBy};
ghost use Rattle.table_bases.specs.declared.words.Base.TheVariants.{Kernel, User};

use crate::installing::install;
use crate::words::Base;
use flush_words::LAST_CLOCK;
use level_validate::acquire;
use step_maker::{look_clock, own_domain};
use xp_board::Port;
use xp_preempt::Preempt;
use xp_words::{Refusal, Stop};

/// Sets the kernel's base of the own vCPU (`MMUEXT_NEW_BASEPTR` of `xen.h`) to a frame of the own domain, 0 to 2^64 - 1: it is acquired as
/// a table of level 4, the own cache is flushed, and the table that was the base before is released. Refused where the clock of flushes
/// is at its last value. Where the gate pauses the release the base is set all the same, and the first old word, which is known to name
/// no frame, names what is left. A vCPU may call it with nothing in hand.
pub fn new_base<P: Port>(port: &mut P, gate: &mut dyn Preempt, f: u64) -> Result<(), Stop>
    requires rests { Rests (P.value port.old) }
    requires room { known_old First (P.value port.old).holdings ≡ Some 0 }
    ensures came { Came (P.value port.old) (P.value port.new) }
    ensures serves { ServesBase (P.value port.old) (P.value port.new) Kernel (Some f) result }
    ensures stops { StopsBase (P.value port.old) (P.value port.new) (Some f) result }
    ensures kinds { IfErr result (IsBaseStop (Some f)) }
    ensures hand { LeavesBase (P.value port.old) (P.value port.new) (Some f) result }
    ensures rests { Rests (P.value port.new) }
    // It makes these calls, and its gate gave these answers.
    ensures course { SetsBaseBy (P.value port.old) (P.value port.new) Kernel (Some f) (policy gate.old) (policy gate.new) result }
{
    name_base(port, gate, Base::Kernel, f)
}

/// Sets the user's base of the own vCPU (`MMUEXT_NEW_USER_BASEPTR` of `xen.h`), as `new_base` the kernel's. Frame 0 stands for none: then
/// nothing is acquired, and the user has no base.
pub fn new_user_base<P: Port>(port: &mut P, gate: &mut dyn Preempt, f: u64) -> Result<(), Stop>
    requires rests { Rests (P.value port.old) }
    requires room { known_old First (P.value port.old).holdings ≡ Some 0 }
    ensures came { Came (P.value port.old) (P.value port.new) }
    ensures serves { ServesBase (P.value port.old) (P.value port.new) User (user_frame f) result }
    ensures stops { StopsBase (P.value port.old) (P.value port.new) (user_frame f) result }
    ensures kinds { IfErr result (IsBaseStop (user_frame f)) }
    ensures hand { LeavesBase (P.value port.old) (P.value port.new) (user_frame f) result }
    ensures rests { Rests (P.value port.new) }
    ensures course { SetsBaseBy (P.value port.old) (P.value port.new) User (user_frame f) (policy gate.old) (policy gate.new) result }
{
    if f == 0 {
        empty_base(port, gate, Base::User)
    } else {
        name_base(port, gate, Base::User, f)
    }
}

// The base is to name that frame.
fn name_base<P: Port>(port: &mut P, gate: &mut dyn Preempt, base: Base, f: u64) -> Result<(), Stop>
    requires rests { Rests (P.value port.old) }
    requires room { known_old First (P.value port.old).holdings ≡ Some 0 }
    ensures met { MeetsBase (P.value port.old) (P.value port.new) base (Some f) (policy gate.old) (policy gate.new) result }
    ensures kinds { IfErr result (IsBaseStop (Some f)) }
    ensures hand { LeavesBase (P.value port.old) (P.value port.new) (Some f) result }
    ensures rests { Rests (P.value port.new) }
{
    let clock = look_clock(port);
    if clock == LAST_CLOCK {
        return Err(Stop::Refused(Refusal::Clock { found: clock }));
    }
    let domain = own_domain(port);
    let frame = acquire(port, gate, f, domain, 4)?;
    install(port, gate, base, Some(frame));
    Ok(())
}

// The base is to name none.
fn empty_base<P: Port>(port: &mut P, gate: &mut dyn Preempt, base: Base) -> Result<(), Stop>
    requires rests { Rests (P.value port.old) }
    requires room { known_old First (P.value port.old).holdings ≡ Some 0 }
    ensures met { MeetsBase (P.value port.old) (P.value port.new) base None (policy gate.old) (policy gate.new) result }
    ensures kinds { IfErr result (IsBaseStop None) }
    ensures hand { LeavesBase (P.value port.old) (P.value port.new) None result }
    ensures rests { Rests (P.value port.new) }
{
    let clock = look_clock(port);
    if clock == LAST_CLOCK {
        return Err(Stop::Refused(Refusal::Clock { found: clock }));
    }
    install(port, gate, base, None);
    Ok(())
}
