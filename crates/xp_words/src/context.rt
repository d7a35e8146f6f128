ghost use Rattle.std.specs.Prelude.{◌≡◌, IfSome};
ghost use Rattle.xp_words.specs.ContextWords.{context_read, context_write, IsContext, ldt_read, ldt_write, IsLdtBase};

/// A word of a vCPU that holds a typed reference: `base`, `user`, `old0`, `old1`, a GDT or an LDT word. None holds
/// nothing, and its word is 0.
#[derive(Clone, Copy, Debug, PartialEq, Eq)]
pub struct ContextWord {
    pub frame: Option<u32>,
}

impl ContextWord {
    /// None exactly where the word is above 2^32.
    #[tactic(auto, unfolding(crate::specs::ContextWords::context_read, crate::specs::ContextWords::IsContext), using(std::proofs::lemmas::Bool::Decides::nat_tests))]
    pub fn read(word: u64) -> Option<Self>
        ensures reads { result ≡ context_read word }
        ensures valid { IfSome result (λ x. IsContext x) }
    {
        if word == 0 {
            return Some(ContextWord { frame: None });
        }
        if word <= 1 << 32 {
            return Some(ContextWord {
                frame: Some((word - 1) as u32),
            });
        }
        None
    }

    /// The word to be stored. Whether the machine has the frame is not looked at here.
    #[tactic(auto, unfolding(crate::specs::ContextWords::context_write, crate::specs::ContextWords::IsContext))]
    pub fn write(&self) -> u64
        requires { IsContext self.now }
        ensures { result ≡ context_write self.now }
    {
        match self.frame {
            None => 0,
            Some(frame) => u64::from(frame) + 1,
        }
    }
}

/// The word `ldtbase` of a vCPU: the page of the LDT's address (bits 12 to 47 of it), and the number of
/// its entries, at most 8,192.
#[derive(Clone, Copy, Debug, PartialEq, Eq)]
pub struct LdtBase {
    pub page: u64,
    pub entries: u16,
}

impl LdtBase {
    /// None exactly where a bit from 50 on is set or the entries are above 8,192.
    #[tactic(auto, unfolding(crate::specs::ContextWords::ldt_read), using(std::proofs::lemmas::Bool::Decides::nat_tests))]
    pub fn read(word: u64) -> Option<Self>
        ensures reads { result ≡ ldt_read word }
        ensures valid { IfSome result (λ x. IsLdtBase x) }
    {
        let entries = word % (1 << 14);
        if word < 1 << 50 && entries <= 8192 {
            Some(LdtBase {
                page: word >> 14,
                entries: entries as u16,
            })
        } else {
            None
        }
    }

    /// The word to be stored: `entries` in bits 0 to 13, `page` from bit 14 on.
    #[tactic(auto, unfolding(crate::specs::ContextWords::ldt_write))]
    pub fn write(&self) -> u64
        requires { IsLdtBase self.now }
        ensures { result ≡ ldt_write self.now }
    {
        (self.page << 14) + u64::from(self.entries)
    }
}
