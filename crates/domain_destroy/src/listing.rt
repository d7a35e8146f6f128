//! The frames that a domain leaves, each listed.
ghost use Rattle.std.specs.Prelude.{◌≡◌, ◌+◌, ◌<◌, ◌≤◌, IfOk, IfErr, vec_len, vec_capacity};
ghost use Rattle.step_maker.specs.Holds.{Same};
ghost use Rattle.domain_destroy.specs.Asking.{IsDestroyStop, ServesDestroy, StopsDestroyer};
ghost use Rattle.domain_destroy.specs.Coming.{HasComeTo};
ghost use Rattle.domain_destroy.specs.Destroying.{ListsOne, ListsOn};
ghost use Rattle.domain_destroy.specs.declared.place.DestroyAt.TheVariants.{Lists};

use frame_words::look_refs;
use xp_board::Port;
use xp_words::{LogLine, Pause, RefWord, Stop};

/// Lists each frame of the domain from `at` on that is referred to, with the word that was found, and counts it; `at` is then the first that is not looked at.
/// A frame that is half free is waited for.
pub(crate) fn list_frames<P: Port>(
    port: &mut P,
    domain: u16,
    at: &mut u32,
    left: &mut u32,
    log: &mut Vec<LogLine>,
    op: u32,
) -> Result<(), Stop>
    requires come { HasComeTo (P.value port.old) domain (Lists at.old left.old) op log.old.items }
    requires room { vec_len log.old + (P.value port.old).post.machine.frames ≤ vec_capacity log.old + at.old }
    ensures hand { Same (P.value port.old) (P.value port.new) }
    ensures come { HasComeTo (P.value port.new) domain (Lists at.new left.new) op log.new.items }
    ensures all { IfOk result (λ _. (P.value port.new).post.machine.frames ≤ at.new) }
    ensures serves { ServesDestroy (P.value port.old) (P.value port.new) domain result }
    ensures kinds { IfErr result IsDestroyStop }
    ensures stops { IfErr result (λ e. StopsDestroyer (P.value port.old) (P.value port.new) domain e) }
    ensures lists { ListsOn domain op (P.value port.old) (Lists at.old left.old) log.old.items (P.value port.new) (Lists at.new left.new) log.new.items result }
    ensures room { vec_len log.new + (P.value port.old).post.machine.frames ≤ vec_capacity log.new + at.new }
    ensures capacity { vec_capacity log.new ≡ vec_capacity log.old }
{
    while *at < port.layout().frames {
        if list_one(port, domain, *at, log, op)? {
            *left += 1;
        }
        *at += 1;
    }
    Ok(())
}

// One frame: whether it is listed.
fn list_one<P: Port>(
    port: &mut P,
    domain: u16,
    frame: u32,
    log: &mut Vec<LogLine>,
    op: u32,
) -> Result<bool, Stop>
    requires frame { frame < (P.value port.old).post.machine.frames }
    requires room { vec_len log.old < vec_capacity log.old }
    ensures hand { Same (P.value port.old) (P.value port.new) }
    ensures serves { ServesDestroy (P.value port.old) (P.value port.new) domain result }
    ensures kinds { IfErr result IsDestroyStop }
    ensures stops { IfErr result (λ e. StopsDestroyer (P.value port.old) (P.value port.new) domain e) }
    ensures lists { ListsOne domain op frame (P.value port.old) log.old.items (P.value port.new) log.new.items result }
    ensures capacity { vec_capacity log.new ≡ vec_capacity log.old }
{
    let found = look_refs(port, frame);
    match RefWord::read(found) {
        Some(RefWord::Dying { owner }) if owner == domain => {
            Err(Stop::Paused(Pause::Busy { frame, found }))
        }
        Some(RefWord::Owned { owner, .. }) if owner == domain => {
            log.push_reserved(LogLine::Left { op, frame, found });
            Ok(true)
        }
        _ => Ok(false),
    }
}
