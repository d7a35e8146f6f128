ghost use Rattle.std.specs.Prelude.{◌≡◌, ℕ, ◌+◌, ◌*◌, ◌/◌, ◌<◌, ◌≤◌, IsTrue, length};
ghost use Rattle.xp_words.specs.Machine.{Machine, IsMachine};
ghost use Rattle.xp_words.specs.declared.place.Place.TheVariants.{Pages, Life, Vcpu, Refs, Kind, M2p, Cell, Map, Priv};
ghost use Rattle.xp_words.specs.Places.{sizes_of, size, number, is_place, map_words};

use crate::place::Place;
use crate::short_list::ShortList;
use std::marker::Model;

/// How many pages each domain may have, at most 65,536 each.
pub type Limits = ShortList<u32>;

/// Over which domains each domain has foreign privilege at the opening: bit b of mask a means domain a over domain b.
pub type Masks = ShortList<u16>;

/// The domain of each vCPU, below the number of domains.
pub type Domains = ShortList<u16>;

/// The fixed numbers of a machine: frames, 1 to 65,536; the count limit of a frame, 2 to 67,108,863; the
/// page limit and the opening privileges of each of 1 to 16 domains; the domain of each of 1 to 16 vCPUs.
#[derive(Drop)]
pub struct Layout {
    pub frames: u32,
    /// The greatest reference count, and the greatest type count, of a frame.
    pub limit: u32,
    pub page_limit: Limits,
    pub privilege: Masks,
    pub vcpu_domain: Domains,
}

impl Model for Layout {
    ghost use Rattle.xp_words.specs.Machine.{Machine, IsMachine};

    ghost Value = { Machine };

    ghost view = { λ l. record { frames = l.frames; limit = l.limit; page_limit = l.page_limit; privilege = l.privilege; vcpu_domain = l.vcpu_domain } };

    ghost invariant = { λ l. IsMachine (record { frames = l.frames; limit = l.limit; page_limit = l.page_limit; privilege = l.privilege; vcpu_domain = l.vcpu_domain }) };
}

impl Layout {
    /// The numbers of domains, at most 16.
    pub fn domains(&self) -> u32
        ensures domains { result ≡ length self.now.page_limit }
        ensures machine { IsMachine self.now }
    {
        self.page_limit.as_slice().len() as u32
    }

    /// The number of vCPUs, at most 16.
    pub fn vcpus(&self) -> u32
        ensures vcpus { result ≡ length self.now.vcpu_domain }
        ensures machine { IsMachine self.now }
    {
        self.vcpu_domain.as_slice().len() as u32
    }

    /// An equal layout, which takes no memory.
    pub fn copy(&self) -> Layout
        ensures { result ≡ self.now }
    {
        Layout {
            frames: self.frames,
            limit: self.limit,
            page_limit: self.page_limit.copy(),
            privilege: self.privilege.copy(),
            vcpu_domain: self.vcpu_domain.copy(),
        }
    }

    /// The number of pages that the domain has: frames that it owns, and pages that a vCPU has counted for it ahead.
    #[tactic(auto, unfolding(crate::specs::Places::number))]
    pub fn pages_place(&self, domain: u16) -> u32
        requires { domain < length self.now.page_limit }
        ensures { result ≡ number (sizes_of self.now) (Pages domain) }
    {
        1 + 2 * u32::from(domain)
    }

    /// The life word: 0 live, 1 to 16 dying (one more than the vCPU that destroys it), 255 dead.
    #[tactic(auto, unfolding(crate::specs::Places::number))]
    pub fn life_place(&self, domain: u16) -> u32
        requires { domain < length self.now.page_limit }
        ensures { result ≡ number (sizes_of self.now) (Life domain) }
    {
        2 + 2 * u32::from(domain)
    }

    /// Word `word` of a vCPU, below 38: 0 base, 1 user, 2 and 3 the old words, 4 asked, 5 flushed, 6 run,
    /// 7 the LDT's base, 8 to 21 the GDT, 22 to 37 the LDT.
    #[tactic(auto, unfolding(crate::specs::Places::number))]
    pub fn vcpu_place(&self, vcpu: u32, word: u32) -> u32
        requires vcpu { vcpu < length self.now.vcpu_domain }
        requires word { word < 38 }
        ensures { result ≡ number (sizes_of self.now) (Vcpu vcpu word) }
    {
        1 + 2 * self.domains() + 38 * vcpu + word
    }

    fn frame_place(&self, frame: u32) -> u32
        requires { frame < self.now.frames }
        ensures place { result ≡ 1 + 2 * length self.now.page_limit + 38 * length self.now.vcpu_domain + 515 * frame }
        ensures room { result < 33754721 }
    {
        1 + 2 * self.domains() + 38 * self.vcpus() + 515 * frame
    }

    /// The reference word of a frame.
    #[tactic(auto, unfolding(crate::specs::Places::number))]
    pub fn refs_place(&self, frame: u32) -> u32
        requires { frame < self.now.frames }
        ensures { result ≡ number (sizes_of self.now) (Refs frame) }
    {
        self.frame_place(frame)
    }

    /// The kind word of a frame.
    #[tactic(auto, unfolding(crate::specs::Places::number))]
    pub fn kind_place(&self, frame: u32) -> u32
        requires { frame < self.now.frames }
        ensures { result ≡ number (sizes_of self.now) (Kind frame) }
    {
        self.frame_place(frame) + 1
    }

    /// The machine-to-physical word of a frame; 2^64 - 1 means none.
    #[tactic(auto, unfolding(crate::specs::Places::number))]
    pub fn m2p_place(&self, frame: u32) -> u32
        requires { frame < self.now.frames }
        ensures { result ≡ number (sizes_of self.now) (M2p frame) }
    {
        self.frame_place(frame) + 2
    }

    /// One of the 512 cells of a frame.
    #[tactic(auto, unfolding(crate::specs::Places::number))]
    pub fn cell_place(&self, frame: u32, index: u16) -> u32
        requires frame { frame < self.now.frames }
        requires index { index < 512 }
        ensures { result ≡ number (sizes_of self.now) (Cell frame index) }
    {
        self.frame_place(frame) + 3 + u32::from(index)
    }

    /// How many words the map of free frames has.
    pub fn map_words(&self) -> u32
        ensures { result ≡ map_words (sizes_of self.now) }
    {
        // So the prover knows that there are few frames.
        let _limit = self.domains();
        (self.frames + 63) / 64
    }

    /// A word of the map of free frames: bit b of word k belongs to frame 64k + b.
    #[tactic(auto, unfolding(crate::specs::Places::number))]
    pub fn map_place(&self, word: u32) -> u32
        requires { word < map_words (sizes_of self.now) }
        ensures { result ≡ number (sizes_of self.now) (Map word) }
    {
        1 + 2 * self.domains() + 38 * self.vcpus() + 515 * self.frames + word
    }

    /// The privilege word. Bits 0 to 15: over which domains this one has privilege now; bits 16 to 31: over which it
    /// ever had.
    #[tactic(auto, unfolding(crate::specs::Places::number))]
    pub fn priv_place(&self, domain: u16) -> u32
        requires { domain < length self.now.page_limit }
        ensures { result ≡ number (sizes_of self.now) (Priv domain) }
    {
        1 + 2 * self.domains()
            + 38 * self.vcpus()
            + 515 * self.frames
            + self.map_words()
            + u32::from(domain)
    }

    /// Where a word stands.
    #[inline(always)]
    #[tactic(auto, unfolding(crate::specs::Places::number, crate::specs::Places::is_place), using(std::proofs::lemmas::Bool::Decides::nat_tests))]
    pub fn place(&self, place: Place) -> u32
        requires { IsTrue (is_place (sizes_of self.now) place) }
        ensures { result ≡ number (sizes_of self.now) place }
    {
        match place {
            Place::Clock => 0,
            Place::Pages { domain } => self.pages_place(domain),
            Place::Life { domain } => self.life_place(domain),
            Place::Vcpu { vcpu, word } => self.vcpu_place(vcpu, word),
            Place::Refs { frame } => self.refs_place(frame),
            Place::Kind { frame } => self.kind_place(frame),
            Place::M2p { frame } => self.m2p_place(frame),
            Place::Cell { frame, index } => self.cell_place(frame, index),
            Place::Map { word } => self.map_place(word),
            Place::Priv { domain } => self.priv_place(domain),
        }
    }

    /// The number of words. A machine of 4,096 frames has 16.9 MB of them, one of 65,536 frames 270 MB.
    #[tactic(auto, unfolding(crate::specs::Places::size))]
    pub fn words(&self) -> u32
        ensures words { result ≡ size (sizes_of self.now) }
        ensures machine { IsMachine self.now }
    {
        1 + 3 * self.domains() + 38 * self.vcpus() + 515 * self.frames + self.map_words()
    }
}
