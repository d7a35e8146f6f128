ghost use Rattle.std.specs.Prelude.{◌≡◌, ◌<◌, IfOk, IfSome, length};
ghost use Rattle.xp_words.specs.Places.{sizes_of};
ghost use Rattle.thread_board.specs.Values.{AreOpened, IsPassOf, opened_pass};
ghost use Rattle.thread_tests.specs.Two.{IsIdlePass, IsRunOfTwo};

use flush_words::look_run;
use m2p_map::set_m2p;
use sparse_words::SparseWords;
use std::alloc::{AllocError, Global};
use std::thread::{Threads, join};
use thread_board::{Pass, SharedBoard};

// Looks whether the vCPU runs, and then sets the machine-to-physical word of a frame of that domain.
fn set_one(board: &SharedBoard, mut pass: Pass, frame: u64, owner: u16, word: u64) -> Pass
    requires vcpu { pass.vcpu < (sizes_of board.now.machine).vcpus }
    requires opened { pass ≡ opened_pass board.now.table pass.vcpu }
    ensures own { IsPassOf board.now result }
    ensures vcpu { result.vcpu ≡ pass.vcpu }
{
    {
        let mut port = pass.port(board);
        if look_run(&mut port) == 0 {
            let _ = set_m2p(&mut port, frame, owner, word);
        }
    }
    pass
}

/// The passes of a board of two vCPUs, as it was made.
pub fn two_passes(_board: &SharedBoard, mut passes: Vec<Pass>) -> Option<(Pass, Pass)>
    requires two { (sizes_of _board.now.machine).vcpus ≡ 2 }
    requires count { length passes.items ≡ 2 }
    requires opened { AreOpened _board.now.table passes.items }
    ensures opened { IfSome result (λ p. (p.0 ≡ opened_pass _board.now.table 0) × (p.1 ≡ opened_pass _board.now.table 1)) }
    ensures idle { IfSome result (λ p. IsIdlePass _board.now p.0 × IsIdlePass _board.now p.1) }
{
    let second = passes.pop()?;
    let first = passes.pop()?;
    Some((first, second))
}

/// Two vCPUs at work in threads of their own, each on a frame of its own domain, 0 and 1, and then the board is closed. One run
/// explains all that each of them found.
pub fn both<R: Threads + Sync>(
    rt: &R,
    alloc: Global,
    board: SharedBoard,
    first: Pass,
    second: Pass,
) -> Result<SparseWords, AllocError>
    requires two { (sizes_of board.machine).vcpus ≡ 2 }
    requires first { first ≡ opened_pass board.table 0 }
    requires second { second ≡ opened_pass board.table 1 }
    ensures { IfOk result (λ words. IsRunOfTwo board.machine board.opening words) }
{
    let mut passes = Vec::with_capacity(alloc, 2)?;
    let shared = &board;
    let (one, two) = join(
        rt,
        move || -> Pass
            requires { (first ≡ opened_pass shared.now.table 0) × (0 < (sizes_of shared.now.machine).vcpus) }
            ensures { IsPassOf shared.entry.now result × (result.vcpu ≡ 0) }
        { set_one(shared, first, 0, 0, 7) },
        move || -> Pass
            requires { (second ≡ opened_pass shared.now.table 1) × (1 < (sizes_of shared.now.machine).vcpus) }
            ensures { IsPassOf shared.entry.now result × (result.vcpu ≡ 1) }
        { set_one(shared, second, 1, 1, 9) },
    );
    passes.push_reserved(one);
    passes.push_reserved(two);
    Ok(board.close(passes))
}
