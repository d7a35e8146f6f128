/// A word of the machine, by name. Domains, vCPUs and frames are numbers of the machine.
#[derive(Clone, Copy, Debug, PartialEq, Eq, Drop)]
pub enum Place {
    /// The clock of flushes, which each flush moves on.
    Clock,
    /// How many pages a domain has.
    Pages { domain: u16 },
    /// 0 where the domain lives.
    Life { domain: u16 },
    /// Word `word` of the vCPU: 0 base, 1 user base, 2 and 3 old, 4 asked, 5 flushed, 6 run, 7 ldtbase, 8 to 21 GDT, 22 to 37 LDT.
    Vcpu { vcpu: u32, word: u32 },
    /// Owner and general reference count of a frame.
    Refs { frame: u32 },
    /// Page type and type count of a frame.
    Kind { frame: u32 },
    /// The machine-to-physical word (m2p) of a frame.
    M2p { frame: u32 },
    /// One of the 512 words that the frame holds.
    Cell { frame: u32, index: u16 },
    /// Word `word` of the free map: bit b belongs to frame 64 * word + b.
    Map { word: u32 },
    /// Bits 0 to 15: over which domains that one has privilege now; bits 16 to 31: over which it ever had.
    Priv { domain: u16 },
}
