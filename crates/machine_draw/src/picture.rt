ghost use Rattle.std.specs.Prelude.{◌≡◌, ◌<◌, ◌≤◌, ◌&&◌, ◌==◌, not, length};
ghost use Rattle.xp_words.specs.declared.place.Place.TheVariants.{Refs, Kind};
ghost use Rattle.report_text.specs.Memories.{word};
ghost use Rattle.machine_draw.specs.Frames.{cluster_of, cluster_of_word, is_drawn_alone, is_plain, is_in_run, domains_of};
ghost use Rattle.machine_draw.specs.Pictures.{blames_frame, blames_domain, blames_vcpu};

use crate::image::Image;
use std::marker::Model;
use walk_audit::Verdict;
use xp_words::{KindWord, PageType, Place, RefWord};

/// What is drawn: a machine with its words; of each frame, whether anything names it; and what an audit said.
#[derive(Drop)]
pub struct Picture<'a> {
    image: &'a Image<'a>,
    named: &'a [bool],
    verdict: Verdict,
}

impl<'a> Model for Picture<'a> {
    ghost use Rattle.machine_draw.specs.Pictures.{Picture, IsPicture};

    ghost Value = { Picture };

    ghost view = { λ s. record { memory = s.image.now; named = s.named.now; verdict = s.verdict } };

    ghost invariant = { λ s. IsPicture (record { memory = s.image.now; named = s.named.now; verdict = s.verdict }) };
}

#[tactic(auto, unfolding(crate::specs::Frames::cluster_of_word))]
fn cluster_of_word(domains: u32, refs: u64) -> u32
    ensures cluster { result ≡ cluster_of_word domains refs }
    ensures bound { result ≤ domains }
{
    match RefWord::read(refs) {
        Some(RefWord::Owned { owner, .. } | RefWord::Dying { owner }) => {
            u32::from(owner).min(domains)
        }
        _ => domains,
    }
}

#[tactic(auto, unfolding(crate::specs::Frames::is_plain), using(std::proofs::lemmas::Bool::Decides::nat_tests))]
fn is_plain(domains: u32, refs: u64, kind: u64) -> bool
    ensures { result ≡ is_plain domains refs kind }
{
    let holder = match RefWord::read(refs) {
        Some(RefWord::Free { .. }) => true,
        Some(RefWord::Owned { owner, .. }) => u32::from(owner) < domains,
        _ => false,
    };
    let form = match KindWord::read(kind) {
        Some(kind) => {
            !(kind.partial
                || kind.locked
                || (kind.validated && !matches!(kind.kind, PageType::Writable)))
        }
        None => false,
    };
    holder && form
}

#[tactic(auto, unfolding(crate::specs::Pictures::blames_frame))]
fn blames_frame(verdict: Verdict, frame: u32) -> bool
    ensures { result ≡ blames_frame verdict frame }
{
    match verdict {
        Verdict::Held { frame: blamed }
        | Verdict::Refs { frame: blamed, .. }
        | Verdict::Count { frame: blamed, .. }
        | Verdict::OtherKind { frame: blamed }
        | Verdict::BadEntry { frame: blamed, .. } => blamed == frame,
        _ => false,
    }
}

#[tactic(auto, unfolding(crate::specs::Pictures::blames_domain))]
fn blames_domain(verdict: Verdict, domain: u16) -> bool
    ensures { result ≡ blames_domain verdict domain }
{
    match verdict {
        Verdict::Pages { domain: blamed, .. } | Verdict::Dead { domain: blamed } => {
            blamed == domain
        }
        _ => false,
    }
}

#[tactic(auto, unfolding(crate::specs::Pictures::blames_vcpu))]
fn blames_vcpu(verdict: Verdict, vcpu: u32) -> bool
    ensures { result ≡ blames_vcpu verdict vcpu }
{
    match verdict {
        Verdict::Context { vcpu: blamed, .. } => blamed == vcpu,
        _ => false,
    }
}

impl<'a> Picture<'a> {
    /// Nothing is copied.
    pub fn new(image: &'a Image<'a>, named: &'a [bool], verdict: Verdict) -> Picture<'a>
        requires { length named.now ≡ image.now.machine.frames }
        ensures { result ≡ record { memory = image.now; named = named.now; verdict = verdict } }
    {
        Picture {
            image,
            named,
            verdict,
        }
    }

    /// The machine and its words, for as long as they were lent.
    pub fn image(&self) -> &'a Image<'a>
        ensures { result.now ≡ self.now.memory }
    {
        self.image
    }

    /// How many frames the machine has.
    pub fn frames(&self) -> u32
        ensures { result ≡ self.now.memory.machine.frames }
    {
        let image = self.image;
        image.frames()
    }

    pub fn verdict(&self) -> Verdict
        ensures { result ≡ self.now.verdict }
    {
        self.verdict
    }

    pub fn blames_frame(&self, frame: u32) -> bool
        ensures { result ≡ blames_frame self.now.verdict frame }
    {
        blames_frame(self.verdict, frame)
    }

    pub fn blames_domain(&self, domain: u16) -> bool
        ensures { result ≡ blames_domain self.now.verdict domain }
    {
        blames_domain(self.verdict, domain)
    }

    pub fn blames_vcpu(&self, vcpu: u32) -> bool
        ensures { result ≡ blames_vcpu self.now.verdict vcpu }
    {
        blames_vcpu(self.verdict, vcpu)
    }

    /// The domain in whose cluster a frame is drawn, or the number of domains, where it is drawn in none.
    #[tactic(auto, unfolding(xp_words::specs::Places::is_place), using(std::proofs::lemmas::Bool::Decides::nat_tests))]
    pub fn cluster_of(&self, frame: u32) -> u32
        requires { frame < self.now.memory.machine.frames }
        ensures { result ≡ cluster_of self.now frame }
    {
        let image = self.image;
        let layout = image.layout();
        cluster_of_word(layout.domains(), image.word(Place::Refs { frame }))
    }

    /// Whether a frame is drawn by itself.
    #[tactic(auto, unfolding(crate::specs::Frames::is_drawn_alone, xp_words::specs::Places::is_place), using(std::proofs::lemmas::Bool::Decides::nat_tests))]
    pub fn is_drawn_alone(&self, frame: u32) -> bool
        requires { frame < self.now.memory.machine.frames }
        ensures { result ≡ is_drawn_alone self.now frame }
    {
        let image = self.image;
        let layout = image.layout();
        let plain = is_plain(
            layout.domains(),
            image.word(Place::Refs { frame }),
            image.word(Place::Kind { frame }),
        );
        let named = self.named[frame as usize];
        named || self.blames_frame(frame) || !plain
    }

    /// Whether a frame is drawn in a run of that cluster.
    #[tactic(auto, unfolding(crate::specs::Frames::is_in_run))]
    pub fn is_in_run(&self, cluster: u32, frame: u32) -> bool
        requires { frame < self.now.memory.machine.frames }
        ensures { result ≡ is_in_run self.now cluster frame }
    {
        self.cluster_of(frame) == cluster && !self.is_drawn_alone(frame)
    }
}
