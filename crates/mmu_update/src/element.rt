ghost use Rattle.std.specs.Prelude.{◌≡◌};
ghost use Rattle.mmu_update.specs.Elements.{element_of};

use xp_words::Pair;

/// What one pair of `mmu_update` asks for.
#[derive(Clone, Copy, Debug, PartialEq, Eq, Drop)]
pub enum Element {
    /// Command 1 (`MMU_MACHPHYS_UPDATE` of `xen.h`): the machine-to-physical word of a frame.
    SetM2p {
        frame: u64,
        gpfn: u64,
    },
    /// Commands 0 and 2 (`MMU_NORMAL_PT_UPDATE`, `MMU_PT_UPDATE_PRESERVE_AD`): the word at an address, which may be an entry of a live table.
    /// `keep`: the entry's accessed and dirty bits stay.
    Write {
        frame: u64,
        index: u16,
        word: u64,
        keep: bool,
    },
    /// The address is not that of a word.
    Misaligned,
    /// No command of the simulated interface.
    Unknown,
}

pub(crate) fn element_of(pair: Pair) -> Element
    ensures { result ≡ element_of pair }
{
    let command = pair.ptr % 4;
    match command {
        1 => Element::SetM2p {
            frame: pair.ptr / 4096,
            gpfn: pair.val,
        },
        3 => Element::Unknown,
        _ if pair.ptr % 8 >= 4 => Element::Misaligned,
        _ => Element::Write {
            frame: pair.ptr / 4096,
            index: (pair.ptr / 8 % 512) as u16,
            word: pair.val,
            keep: command == 2,
        },
    }
}
