//! How far a destruction has come between turns.

/// How far a destruction has come. Each place says what the destroying vCPU has found before it: the next one is behind the end of it.
#[derive(Clone, Copy, Debug, PartialEq, Eq, Drop)]
pub enum DestroyAt {
    /// Nothing is done.
    Begins,
    /// The own vCPU destroys the domain, and found the vCPUs below that one stopped.
    Stops { vcpu: u32 },
    /// All are stopped, and the words of those below that one empty.
    Empties { vcpu: u32 },
    /// So are all, and the frames below that one are without marks, or not the domain's.
    Clears { frame: u32 },
    /// So are all, and no page table or descriptor page of the domain is to be in use.
    Checks,
    /// None was, and of the frames below that one so many are listed.
    Lists { frame: u32, left: u32 },
}
