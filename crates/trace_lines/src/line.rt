use xp_words::Op;

/// What one line of a trace says, before anything is known of the lines around it.
#[derive(Drop)]
pub enum Line {
    /// The first line, with the version, 1 or 2.
    Header {
        version: u8,
    },
    /// The machine has so many frames.
    Frames {
        count: u64,
    },
    /// The greatest count of a frame's references and types.
    Limit {
        count: u64,
    },
    /// The clock at the opening.
    Clock {
        start: u64,
    },
    /// One more domain, with its page limit.
    Domain {
        limit: u64,
    },
    /// Domain `domain` has foreign privilege over domain `over`.
    Priv {
        domain: u64,
        over: u64,
    },
    /// One more vCPU, of that domain.
    Vcpu {
        domain: u64,
    },
    /// Frames that a domain owns at the opening.
    Own {
        domain: u64,
        first: u64,
        count: u64,
    },
    /// Cells of a frame, and what they hold at the opening.
    Cell {
        frame: u64,
        first: u64,
        count: u64,
        value: u64,
    },
    /// The next operation of a vCPU's script.
    Op {
        vcpu: u64,
        op: Op,
    },
    /// The next turns, of one vCPU.
    Turn {
        vcpu: u64,
        count: u64,
    },
    /// The last line.
    End,
}
