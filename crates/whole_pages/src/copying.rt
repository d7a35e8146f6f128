//! A frame is copied.
ghost use Rattle.std.specs.Prelude.{◌≡◌, ◌<◌};
ghost use Rattle.xp_board.specs.Readings.{domain_of};
ghost use Rattle.step_maker.specs.Holds.{MayWork, Rests};
ghost use Rattle.frame_words.specs.Cells.{IsApart};
ghost use Rattle.whole_pages.specs.Whole.{Copies, MayFill, PageCopied};

use frame_types::drop_plain;
use frame_words::{get_ref, look_cell, put_ref, store_cell};
use writable_pages::get_page;
use xp_board::Port;
use xp_words::{PageType, Stop};

/// Stores in each of the 512 cells of frame number `to` the word that was found in that cell of frame number `from`
/// (`MMUEXT_COPY_PAGE` of `xen.h`). Both are to be the own domain's, and may be one frame. The target is taken as ordinary memory meanwhile;
/// the source may be of any type. A refusal or a pause stores nothing, and leaves nothing in hand. The gate is not asked.
pub fn copy_page<P: Port>(port: &mut P, domain: u16, to: u64, from: u64) -> Result<(), Stop>
    requires rests { Rests (P.value port.old) }
    requires own { domain ≡ domain_of (P.value port.old).post.machine (P.value port.old).post.vcpu }
    ensures { PageCopied (P.value port.old) (P.value port.new) domain to from result }
{
    let target = get_page(port, to, domain)?;
    match get_ref(port, from, domain) {
        Ok(source) => {
            copy_cells(port, target, source);
            put_ref(port, source);
            drop_plain(port, target, PageType::Writable);
            Ok(())
        }
        Err(stop) => {
            drop_plain(port, target, PageType::Writable);
            Err(stop)
        }
    }
}

// All cells, from the first on: each is loaded, and its word stored at once.
fn copy_cells<P: Port>(port: &mut P, target: u32, source: u32)
    requires target { target < (P.value port.old).post.machine.frames }
    requires source { source < (P.value port.old).post.machine.frames }
    requires may { MayWork (P.value port.old) }
    requires fills { MayFill (P.value port.old) target }
    requires apart { IsApart source (P.value port.old).holdings }
    ensures { Copies (P.value port.old) (P.value port.new) target source 512 }
{
    for index in 0..512 {
        let word = look_cell(port, source, index);
        store_cell(port, target, index, word);
    }
}
