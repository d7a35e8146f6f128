//! A frame is cleared.
ghost use Rattle.std.specs.Prelude.{◌≡◌, ◌<◌};
ghost use Rattle.xp_board.specs.Readings.{domain_of};
ghost use Rattle.step_maker.specs.Holds.{MayWork, Rests};
ghost use Rattle.whole_pages.specs.Whole.{Clears, MayFill, PageCleared};

use frame_types::drop_plain;
use frame_words::store_cell;
use writable_pages::get_page;
use xp_board::Port;
use xp_words::{PageType, Stop};

/// Stores 0 in each of the 512 cells of frame number `f`, which is to be the own domain's (`MMUEXT_CLEAR_PAGE` of `xen.h`). It is taken as
/// ordinary memory meanwhile. A refusal or a pause stores nothing, and leaves nothing in hand. The gate is not asked.
pub fn clear_page<P: Port>(port: &mut P, domain: u16, f: u64) -> Result<(), Stop>
    requires rests { Rests (P.value port.old) }
    requires own { domain ≡ domain_of (P.value port.old).post.machine (P.value port.old).post.vcpu }
    ensures { PageCleared (P.value port.old) (P.value port.new) domain f result }
{
    let frame = get_page(port, f, domain)?;
    clear_cells(port, frame);
    drop_plain(port, frame, PageType::Writable);
    Ok(())
}

// All cells, from the first on.
fn clear_cells<P: Port>(port: &mut P, frame: u32)
    requires frame { frame < (P.value port.old).post.machine.frames }
    requires may { MayWork (P.value port.old) }
    requires fills { MayFill (P.value port.old) frame }
    ensures { Clears (P.value port.old) (P.value port.new) frame 512 }
{
    for index in 0..512 {
        store_cell(port, frame, index, 0);
    }
}
