ghost use Rattle.std.specs.Prelude.{◌≡◌, IsTrue, IfSome};
ghost use Rattle.xp_words.specs.KindWords.{is_kind, kind_read, kind_write, has_form, is_live_form, is_partial_form, is_work_form, is_dead_form, is_marked_number};
ghost use Rattle.xp_words.specs.PageTypes.{is_none, is_table, type_number};

/// The type of a frame (`PGT_` of Xen's `mm.h`). A frame has one exclusive type at a time.
#[derive(Clone, Copy, Debug, PartialEq, Eq)]
pub enum PageType {
    /// No type was taken yet.
    None,
    /// A page table of level 1, whose entries map pages.
    L1,
    L2,
    L3,
    /// A page table of level 4, to which a base of a vCPU leads.
    L4,
    /// A page of descriptors, for a GDT or an LDT.
    Desc,
    /// Ordinary memory, which the guest may map writable.
    Writable,
}

impl PageType {
    /// A frame of this type was never taken for one, so nothing waits for flushes before it is.
    pub fn is_none(self) -> bool
        ensures { result ≡ is_none self }
    {
        matches!(self, PageType::None)
    }

    /// L1 to L4: a frame whose entries hold references.
    pub fn is_table(self) -> bool
        ensures { result ≡ is_table self }
    {
        matches!(
            self,
            PageType::L1 | PageType::L2 | PageType::L3 | PageType::L4
        )
    }

    /// The number that a kind word has for it, in bits 52 to 54. A page table has its level.
    pub fn number(self) -> u64
        ensures { result ≡ type_number self }
    {
        match self {
            PageType::None => 0,
            PageType::L1 => 1,
            PageType::L2 => 2,
            PageType::L3 => 3,
            PageType::L4 => 4,
            PageType::Desc => 5,
            PageType::Writable => 7,
        }
    }
}

/// The second word of a frame: its type, its form and marks. `number` is the type count where the frame
/// is validated, else a stamp.
#[derive(Clone, Copy, Debug, PartialEq, Eq)]
pub struct KindWord {
    pub kind: PageType,
    /// The guest holds a type count by `MMUEXT_PIN_L1_TABLE` or one of the other three.
    pub pinned: bool,
    /// Live: the frame may be used with its type.
    pub validated: bool,
    /// Validation or release was interrupted.
    pub partial: bool,
    /// In work, or a live table under the entry lock of one vCPU.
    pub locked: bool,
    /// The type count of a partial frame is the mark's own, and no entry's.
    pub kept: bool,
    /// The change of type still waits for flushes.
    pub unflushed: bool,
    /// How many leading entries of a partial table hold references, at most 512.
    pub progress: u16,
    /// A type count is below 2^26, a stamp below 2^36.
    pub number: u64,
}

impl KindWord {
    /// The word to be stored. Whether the count is within the machine's limit is not looked at here.
    #[tactic(auto, unfolding(crate::specs::KindWords::kind_write), using(std::proofs::lemmas::Bool::Decides::nat_tests))]
    pub fn write(&self) -> u64
        requires { IsTrue (is_kind self.now) }
        ensures { result ≡ kind_write self.now }
    {
        self.number
            + ((self.progress as u64) << 36)
            + ((self.unflushed as u64) << 46)
            + ((self.kept as u64) << 47)
            + ((self.locked as u64) << 48)
            + ((self.partial as u64) << 49)
            + ((self.validated as u64) << 50)
            + ((self.pinned as u64) << 51)
            + (self.kind.number() << 52)
    }

    /// None exactly where the word is no spelling of a kind word.
    #[tactic(auto, unfolding(crate::specs::KindWords::kind_read, crate::specs::KindWords::kind_fields), using(std::proofs::lemmas::Bool::Decides::nat_tests))]
    pub fn read(word: u64) -> Option<Self>
        ensures { result ≡ kind_read word }
    {
        let kind = match word >> 52 {
            0 => PageType::None,
            1 => PageType::L1,
            2 => PageType::L2,
            3 => PageType::L3,
            4 => PageType::L4,
            5 => PageType::Desc,
            7 => PageType::Writable,
            _ => return None,
        };
        let fields = KindWord {
            kind,
            pinned: (word >> 51) % 2 == 1,
            validated: (word >> 50) % 2 == 1,
            partial: (word >> 49) % 2 == 1,
            locked: (word >> 48) % 2 == 1,
            kept: (word >> 47) % 2 == 1,
            unflushed: (word >> 46) % 2 == 1,
            progress: ((word >> 36) % 1024) as u16,
            number: word % (1 << 36),
        };
        if fields.has_form() {
            Some(fields)
        } else {
            None
        }
    }

    #[tactic(auto, unfolding(crate::specs::KindWords::has_form))]
    fn has_form(&self) -> bool
        ensures { result ≡ has_form self.now }
    {
        if self.validated {
            self.is_live()
        } else if self.partial {
            self.is_partial()
        } else if self.locked {
            self.is_work()
        } else {
            self.is_dead()
        }
    }

    fn is_live(&self) -> bool
        ensures { result ≡ is_live_form self.now }
    {
        !self.partial
            && !self.kept
            && !self.unflushed
            && self.progress == 0
            && !self.kind.is_none()
            && self.number < 1 << 26
            && (!(self.pinned || self.locked) || (self.kind.is_table() && 0 < self.number))
    }

    fn is_marked_number(&self) -> bool
        ensures { result ≡ is_marked_number self.now }
    {
        self.unflushed || self.number == 0
    }

    fn is_partial(&self) -> bool
        ensures { result ≡ is_partial_form self.now }
    {
        !self.locked
            && !self.pinned
            && !self.kind.is_none()
            && self.progress < 513
            && self.is_marked_number()
            && (if self.unflushed || !self.kind.is_table() {
                self.progress == 0 && self.unflushed
            } else {
                true
            })
            && (!matches!(self.kind, PageType::Desc) || self.kept)
    }

    fn is_work(&self) -> bool
        ensures { result ≡ is_work_form self.now }
    {
        !self.kept
            && !self.pinned
            && self.progress == 0
            && !self.kind.is_none()
            && self.is_marked_number()
    }

    fn is_dead(&self) -> bool
        ensures { result ≡ is_dead_form self.now }
    {
        !self.kept && !self.pinned && self.progress == 0 && !(self.unflushed && self.kind.is_none())
    }
}
