//! Page walks.
ghost use Rattle.std.specs.Prelude.{◌≡◌, ◌≢◌, ◌≤◌, ◌<◌, ◌-◌, ◌^◌, true, false, None, Some, IfErr};
ghost use Rattle.step_maker.specs.Answers.{Serves, Stops, misses};
ghost use Rattle.step_maker.specs.Holds.{Rests};
ghost use Rattle.step_maker.specs.Moves.{Came};
ghost use Rattle.tlb_walks.specs.Asking.{IsWalkStop, of_walk};
ghost use Rattle.tlb_walks.specs.Flying.{EndedIn, WalkReady, WalkMoves};
ghost use Rattle.tlb_walks.specs.Translating.{Walks};

use crate::addresses::refused_walk;
use crate::entries::load_base;
use crate::levels::{unmapped, walk_from};
use own_cache::Flight;
use xp_board::Port;
use xp_words::Stop;

// The level of a top table.
const TOP: u8 = 4;

// In a refusal: there is no top table.
const NO_BASE: u8 = 5;

/// What a walk that succeeds finds: the entry of level 1 as it was loaded, and the first of the four entries, from level 4
/// down, that cannot be written (its bit 1 is 0).
#[derive(Clone, Copy, Debug, PartialEq, Eq, Drop)]
pub struct Walked {
    pub entry: u64,
    pub barrier: Option<u64>,
}

// A walk at the top table, which the base names.
fn at_top(user: bool, write: bool, base: u64) -> Flight
    requires some { base ≢ 0 }
    requires few { base ≤ 65536 }
    ensures { result ≡ record { user = user; write = write; writable = true; touching = false; page = 0; table = base - 1; level = 4 } }
{
    Flight {
        user,
        write,
        writable: true,
        touching: false,
        page: 0,
        table: (base - 1) as u32,
        level: TOP,
    }
}

/// A walk that tells the barrier, too.
pub(crate) fn walk_to<P: Port>(
    port: &mut P,
    user: bool,
    va: u64,
    write: bool,
) -> Result<Walked, Stop>
    requires ready { WalkReady (P.value port.old) }
    requires landed { (P.value port.old).holdings.walk ≡ None }
    ensures moves { WalkMoves (P.value port.old) (P.value port.new) user va write result }
    ensures hand { EndedIn (P.value port.old) (P.value port.new) user va write result }
{
    if let Some(refusal) = refused_walk(va) {
        return Err(Stop::Refused(refusal));
    }
    let base = load_base(port, user, write);
    if base == 0 {
        return Err(unmapped(NO_BASE, 0));
    }
    let top = at_top(user, write, base);
    walk_from(port, &top, None, va)
}

/// A page walk for the address `va`, by the user's top table or the kernel's, for a write or a read. It answers the entry
/// of level 1 as it was loaded. The vCPU itself calls it, in its turn, with nothing in hand; one that has just come to its
/// processor flushes first.
///
/// As Intel's processors do, a walk sets the accessed bit (5) of each present entry that it loads, and for a write through
/// four entries that can be written (bit 1) the dirty bit (6) of the last: each right after the load, by one exchange of the
/// entry that was loaded, where a bit is not set yet. An exchange that finds another word ends the walk: it pauses, and is
/// not tried again. The translation of the page then stands first among those of the vCPU, and a 65th drops out.
///
/// Refused are, in this order: an address that is not canonical; one whose bits 39 to 47 are 256 to 271, the hypervisor's
/// slots in Xen's PV interface; one for which there is no top table (level 5, word 0), or an entry is not present or names
/// no frame of the machine (its level, 4 to 1, and the word). A refused walk may have set accessed bits.
pub fn walk<P: Port>(port: &mut P, user: bool, va: u64, write: bool) -> Result<u64, Stop>
    requires rests { Rests (P.value port.old) }
    requires warm { (P.value port.old).holdings.cold ≡ false }
    ensures came { Came (P.value port.old) (P.value port.new) }
    ensures serves { Serves (P.value port.old) (P.value port.new) (of_walk va) (misses (P.value port.old).post.machine result) }
    ensures stops { IfErr result (λ e. Stops (P.value port.old) (P.value port.new) (of_walk va) e) }
    ensures kinds { IfErr result IsWalkStop }
    ensures course { Walks (P.value port.old) (P.value port.new) user va write result }
    ensures rests { Rests (P.value port.new) }
    ensures warm { (P.value port.new).holdings.cold ≡ false }
{
    match walk_to(port, user, va, write) {
        Ok(walked) => Ok(walked.entry),
        Err(stop) => Err(stop),
    }
}
