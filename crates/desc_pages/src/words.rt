//! The words of a vCPU that name the pages of its GDT and LDT.
ghost use Rattle.std.specs.Prelude.{◌≤◌, ◌<◌, List};
ghost use Rattle.xp_board.specs.declared.holdings.TypedReference.{TypedReference};
ghost use Rattle.step_maker.specs.Holds.{MayWork};
ghost use Rattle.desc_pages.specs.Names.{HoldsForPage, PutsPage};

use context_words::put_name;
use frame_types::drop_plain;
use xp_board::Port;
use xp_words::PageType;

/// Lets a word of the own GDT or LDT name a descriptor page, the newest typed reference in hand, or none; and gives the page that it named
/// before back.
pub fn put_page<P: Port>(port: &mut P, word: u32, new: Option<u32>)
    requires low { 8 ≤ word }
    requires few { word < 38 }
    requires may { MayWork (P.value port.old) }
    requires holds { (rest : List TypedReference) × HoldsForPage (P.value port.old) new rest }
    ensures { (rest : List TypedReference) → HoldsForPage (P.value port.old) new rest → PutsPage (P.value port.old) (P.value port.new) word new rest }
{
    let old = put_name(port, word, new);
    if old != 0 {
        drop_plain(port, (old - 1) as u32, PageType::Desc);
    }
}
