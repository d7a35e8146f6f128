ghost use Rattle.std.specs.Prelude.{◌≡◌};
ghost use Rattle.mmuext_ops.specs.Elements.{ext_element};

use xp_words::ExtOp;

/// What one element of `mmuext_op` asks for.
#[derive(Clone, Copy, Debug, PartialEq, Eq, Drop)]
pub enum Element {
    /// Commands 0 to 3 (`MMUEXT_PIN_L1_TABLE` to `MMUEXT_PIN_L4_TABLE` of `xen.h`): a frame is pinned as a table of that level, 1 to 4.
    Pin { frame: u64, level: u8 },
    /// Command 4 (`MMUEXT_UNPIN_TABLE`): a table is unpinned.
    Unpin { frame: u64 },
    /// Command 5 (`MMUEXT_NEW_BASEPTR`): the kernel's base is set to a frame.
    NewBase { frame: u64 },
    /// Command 15 (`MMUEXT_NEW_USER_BASEPTR`): the user's base is; frame 0 stands for none.
    NewUserBase { frame: u64 },
    /// Command 6 (`MMUEXT_TLB_FLUSH_LOCAL`): the vCPU drops all its translations.
    FlushLocal,
    /// Command 7 (`MMUEXT_INVLPG_LOCAL`): it drops those of the page of an address.
    Invalidate { va: u64 },
    /// Commands 8 to 11 (`MMUEXT_TLB_FLUSH_MULTI`, `MMUEXT_INVLPG_MULTI`, `MMUEXT_TLB_FLUSH_ALL` and `MMUEXT_INVLPG_ALL`): vCPUs of the own domain
    /// are waited for until each has dropped all its translations. Bit v of the mask is vCPU v; the last two commands mean all.
    FlushVcpus { mask: u16 },
    /// Command 13 (`MMUEXT_SET_LDT`): the LDT of the vCPU is set to that address and number of entries.
    SetLdt { address: u64, entries: u64 },
    /// Command 16 (`MMUEXT_CLEAR_PAGE`): all words of a frame are set to 0.
    ClearPage { frame: u64 },
    /// Command 17 (`MMUEXT_COPY_PAGE`): all words of a frame are copied into another one.
    CopyPage { to: u64, from: u64 },
    /// No command of the simulated interface.
    Unknown,
}

// A bit for each vCPU that a machine may have.
const EVERY_VCPU: u16 = 0xffff;

pub(crate) fn element_of(op: ExtOp) -> Element
    ensures { result ≡ ext_element op }
{
    match op.command {
        0 => Element::Pin {
            frame: op.first,
            level: 1,
        },
        1 => Element::Pin {
            frame: op.first,
            level: 2,
        },
        2 => Element::Pin {
            frame: op.first,
            level: 3,
        },
        3 => Element::Pin {
            frame: op.first,
            level: 4,
        },
        4 => Element::Unpin { frame: op.first },
        5 => Element::NewBase { frame: op.first },
        6 => Element::FlushLocal,
        7 => Element::Invalidate { va: op.first },
        8 | 9 => Element::FlushVcpus {
            mask: (op.second & 0xffff) as u16,
        },
        10 | 11 => Element::FlushVcpus { mask: EVERY_VCPU },
        13 => Element::SetLdt {
            address: op.first,
            entries: op.second,
        },
        15 => Element::NewUserBase { frame: op.first },
        16 => Element::ClearPage { frame: op.first },
        17 => Element::CopyPage {
            to: op.first,
            from: op.second,
        },
        _ => Element::Unknown,
    }
}
