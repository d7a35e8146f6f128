ghost use Rattle.std.specs.Prelude.{◌≡◌, IfSome};
ghost use Rattle.xp_words.specs.RefWords.{ref_read, ref_write, IsRef};

/// The first word of a frame: who owns it, and how many references there are to it.
#[derive(Clone, Copy, Debug, PartialEq, Eq)]
pub enum RefWord {
    /// Nobody's. `stamp` is the clock value with which it became free: who takes it next waits until each vCPU was
    /// flushed later.
    Free {
        stamp: u64,
    },
    /// `allocated` says that one of the references is the owner's own.
    Owned {
        owner: u16,
        allocated: bool,
        count: u32,
    },
    /// The count is 0, and the frame is in one vCPU's hand.
    Dying {
        owner: u16,
    },
}

impl RefWord {
    /// None exactly where the word is no spelling of a reference word.
    #[tactic(auto, unfolding(crate::specs::RefWords::ref_read, crate::specs::RefWords::IsRef), using(std::proofs::lemmas::Bool::Decides::nat_tests))]
    pub fn read(word: u64) -> Option<Self>
        ensures reads { result ≡ ref_read word }
        ensures valid { IfSome result (λ x. IsRef x) }
    {
        if word < 1 << 36 {
            return Some(RefWord::Free { stamp: word });
        }
        if word >> 48 != 1 << 15 || (word >> 26) % 32 != 0 {
            return None;
        }
        let owner = ((word >> 32) % 65536) as u16;
        let allocated = (word >> 31) % 2 == 1;
        let count = (word % (1 << 26)) as u32;
        if count != 0 {
            Some(RefWord::Owned {
                owner,
                allocated,
                count,
            })
        } else if allocated {
            None
        } else {
            Some(RefWord::Dying { owner })
        }
    }

    /// The word to be stored. Whether the machine has the owner, and the count is within its limit, is not looked at
    /// here.
    #[tactic(auto, unfolding(crate::specs::RefWords::ref_write, crate::specs::RefWords::IsRef))]
    pub fn write(&self) -> u64
        requires { IsRef self.now }
        ensures { result ≡ ref_write self.now }
    {
        match *self {
            RefWord::Free { stamp } => stamp,
            RefWord::Owned {
                owner,
                allocated,
                count,
            } => {
                let top = (1 << 63) + ((owner as u64) << 32);
                let mark = if allocated { 1 << 31 } else { 0 };
                top + mark + count as u64
            }
            RefWord::Dying { owner } => (1 << 63) + ((owner as u64) << 32),
        }
    }
}
