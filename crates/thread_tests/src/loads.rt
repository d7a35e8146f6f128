//! One thread with the passes of two vCPUs.
ghost use Rattle.thread_tests.specs.Two.{IsIdlePass};

use flush_words::look_run;
use m2p_map::set_m2p;
use step_maker::look;
use thread_board::{Pass, SharedBoard};
use xp_board::Port;
use xp_words::Place;

/// Sets the machine-to-physical word of a frame of that domain, where the vCPU runs.
pub fn set_word(board: &SharedBoard, pass: &mut Pass, frame: u64, owner: u16, word: u64)
    requires { IsIdlePass board.now pass.old }
    ensures { IsIdlePass board.now pass.new }
{
    let mut port = pass.port(board);
    if look_run(&mut port) == 0 {
        let _ = set_m2p(&mut port, frame, owner, word);
    }
}

/// The machine-to-physical word of a frame, as that vCPU finds it.
#[tactic(auto, unfolding(xp_words::specs::Places::is_place))]
pub fn word_of(board: &SharedBoard, pass: &mut Pass, frame: u32) -> Option<u64>
    requires { IsIdlePass board.now pass.old }
    ensures { IsIdlePass board.now pass.new }
{
    let mut port = pass.port(board);
    if frame >= port.layout().frames {
        return None;
    }
    Some(look(&mut port, Place::M2p { frame }))
}
