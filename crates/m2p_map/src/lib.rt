//! The machine-to-physical words (m2p) of frames.
#![tactic(auto)]

ghost use Rattle.std.specs.Prelude.{◌≡◌, None, IfErr};
ghost use Rattle.step_maker.specs.Holds.{Same, MayWork};
ghost use Rattle.step_maker.specs.Answers.{Serves, Stops};
ghost use Rattle.step_maker.specs.Asked.{of_frame};
ghost use Rattle.m2p_map.specs.Found.{SetFound};
ghost use Rattle.m2p_map.specs.Maps.{deeds_of, TwinSet};

use frame_words::{get_ref, put_ref, store_m2p};
use xp_board::Port;
use xp_words::Stop;

/// Sets the machine-to-physical word of a frame of the domain `owner`, under a reference of its own. Its refusals
/// and its pause are those of `get_ref`.
pub fn set_m2p<P: Port>(port: &mut P, f: u64, owner: u16, gpfn: u64) -> Result<(), Stop>
    requires { MayWork (P.value port.old) }
    ensures serves { Serves (P.value port.old) (P.value port.new) (of_frame f owner None) (deeds_of (P.value port.old).post.machine f gpfn result) }
    ensures stops { IfErr result (λ e. Stops (P.value port.old) (P.value port.new) (of_frame f owner None) e) }
    ensures hand { Same (P.value port.old) (P.value port.new) }
    ensures found { SetFound (P.value port.old) (P.value port.new) f owner gpfn result }
    ensures plain { TwinSet (P.value port.old) (P.value port.new) f owner gpfn result }
{
    let frame = get_ref(port, f, owner)?;
    store_m2p(port, frame, gpfn);
    put_ref(port, frame);
    Ok(())
}
