ghost use Rattle.std.specs.Prelude.{◌≡◌, ◌<◌, length};
ghost use Rattle.xp_words.specs.declared.place.Place.TheVariants.{Pages, Life, Vcpu, Refs, Kind, M2p};
ghost use Rattle.xp_words.specs.Places.{sizes_of, size};
ghost use Rattle.report_text.specs.Memories.{word};

use sparse_words::SparseWords;
use std::marker::Model;
use xp_words::Layout;

/// A machine and its words, which are read by name.
#[derive(Drop)]
pub struct Memory<'a> {
    layout: &'a Layout,
    words: &'a SparseWords,
}

impl<'a> Model for Memory<'a> {
    ghost use Rattle.report_text.specs.Memories.{Memory, IsWhole};

    ghost Value = { Memory };

    ghost view = { λ s. record { machine = s.layout.now; words = s.words.now } };

    ghost invariant = { λ s. IsWhole (record { machine = s.layout.now; words = s.words.now }) };
}

#[tactic(auto, unfolding(crate::specs::Memories::word, xp_words::specs::Places::memory, xp_words::specs::Places::is_place, xp_words::specs::Places::size, xp_words::specs::Places::number))]
impl<'a> Memory<'a> {
    /// Both are borrowed: nothing is copied.
    pub fn new(layout: &'a Layout, words: &'a SparseWords) -> Memory<'a>
        requires { length words.now ≡ size (sizes_of layout.now) }
        ensures { result ≡ record { machine = layout.now; words = words.now } }
    {
        Memory { layout, words }
    }

    /// The machine, for as long as it was lent.
    pub fn layout(&self) -> &'a Layout
        ensures { result.now ≡ self.now.machine }
    {
        self.layout
    }

    /// The number of pages that a domain has.
    pub fn pages(&self, domain: u16) -> u64
        requires { domain < length self.now.machine.page_limit }
        ensures { result ≡ word self.now (Pages domain) }
    {
        let layout = self.layout;
        self.words.get(layout.pages_place(domain))
    }

    /// 0 where the domain is live, 255 where it is dead.
    pub fn life(&self, domain: u16) -> u64
        requires { domain < length self.now.machine.page_limit }
        ensures { result ≡ word self.now (Life domain) }
    {
        let layout = self.layout;
        self.words.get(layout.life_place(domain))
    }

    /// Word `index` of a vCPU, below 38: 0 base, 1 user, 2 and 3 the old words.
    pub fn vcpu(&self, vcpu: u32, index: u32) -> u64
        requires vcpu { vcpu < length self.now.machine.vcpu_domain }
        requires index { index < 38 }
        ensures { result ≡ word self.now (Vcpu vcpu index) }
    {
        let layout = self.layout;
        self.words.get(layout.vcpu_place(vcpu, index))
    }

    /// The reference word of a frame.
    pub fn refs(&self, frame: u32) -> u64
        requires { frame < self.now.machine.frames }
        ensures { result ≡ word self.now (Refs frame) }
    {
        let layout = self.layout;
        self.words.get(layout.refs_place(frame))
    }

    /// The kind word of a frame.
    pub fn kind(&self, frame: u32) -> u64
        requires { frame < self.now.machine.frames }
        ensures { result ≡ word self.now (Kind frame) }
    {
        let layout = self.layout;
        self.words.get(layout.kind_place(frame))
    }

    /// The machine-to-physical word of a frame.
    pub fn m2p(&self, frame: u32) -> u64
        requires { frame < self.now.machine.frames }
        ensures { result ≡ word self.now (M2p frame) }
    {
        let layout = self.layout;
        self.words.get(layout.m2p_place(frame))
    }
}
