//! The extents of `memory_op`.
ghost use Rattle.std.specs.Prelude.{◌≡◌, ◌^◌, ◌<◌, ◌≤◌, length};
ghost use Rattle.xp_board.specs.Readings.{domain_of};
ghost use Rattle.step_maker.specs.Holds.{Rests};
ghost use Rattle.reservations.specs.Extents.{Reserves};

use crate::returning::decrease;
use frame_claims::claim;
use xp_board::Port;
use xp_words::{Refusal, Stop};

/// One extent of `memory_op`: 2^order frames.
#[derive(Clone, Copy, Debug, PartialEq, Eq, Drop)]
pub enum Extent {
    /// `XENMEM_increase_reservation`: a block, for which no page number is set.
    Increase,
    /// `XENMEM_decrease_reservation`: the frames of the machine from `first` on are given back.
    Decrease { first: u64 },
    /// `XENMEM_populate_physmap`: a block, whose machine-to-physical words are numbered from `gpfn` on.
    Populate { gpfn: u64 },
}

// The page numbers of a guest have no more bits.
const GPFN_BITS: u32 = 52;

/// One extent for the own domain. `Ok(Some(frame))`: a block is given that begins at that frame. `within` counts the frames of the extent that are given back,
/// which goes on from turn to turn; a block is given as a whole or not at all.
pub fn reserve<P: Port>(
    port: &mut P,
    owner: u16,
    order: u8,
    extent: Extent,
    within: &mut u32,
) -> Result<Option<u32>, Stop>
    requires own { owner ≡ domain_of (P.value port.old).post.machine (P.value port.old).post.vcpu }
    requires domain { owner < length (P.value port.old).post.machine.page_limit }
    requires order { order ≤ 9 }
    requires rests { Rests (P.value port.old) }
    ensures { Reserves owner (2 ^ order) extent within.old (P.value port.old) within.new (P.value port.new) result }
{
    match extent {
        Extent::Increase => Ok(Some(claim(port, owner, order, None)?)),
        Extent::Populate { gpfn } => {
            if gpfn >> GPFN_BITS != 0 {
                return Err(Stop::Refused(Refusal::BadRange));
            }
            Ok(Some(claim(port, owner, order, Some(gpfn))?))
        }
        Extent::Decrease { first } => {
            decrease(port, owner, 1 << order, first, within)?;
            Ok(None)
        }
    }
}
