//! What each domain, each vCPU and each frame opens with.
#![tactic(auto, using(crate::proofs::Steps::inside))]

ghost use Rattle.std.specs.Prelude.{◌≡◌, ◌≤◌, ◌<◌, ◌^◌, ℕ, length};
ghost use Rattle.xp_words.specs.declared.place.Place.{Place};
ghost use Rattle.xp_words.specs.Places.{sizes_of, size, memory};
ghost use Rattle.trace_text.specs.Counted.{pages_of};
ghost use Rattle.trace_text.specs.WellFormed.{IsWellFormed};
ghost use Rattle.machine_build.specs.Puts.{with_domains, with_vcpus, with_m2p};

use sparse_words::SparseWords;
use trace_text::{Own, Trace};
use xp_words::Layout;

/// The number of the flush word among the words of a vCPU.
const FLUSHED: u32 = 5;
/// The machine-to-physical word that means none.
const NO_NUMBER: u64 = u64::MAX;

fn pages_of_domain(owned: &[Own], domain: u16) -> u64
    requires { pages_of domain owned.now ≤ 65536 }
    ensures { result ≡ pages_of domain owned.now }
{
    owned
        .iter()
        .map(|own| if own.domain == domain {
            u64::from(own.count)
        } else {
            0
        })
        .sum()
}

/// The pages and the privileges of each domain. Its life word stays 0: it lives.
pub fn put_domains(trace: &Trace, words: &mut SparseWords)
    requires formed { IsWellFormed trace.now }
    requires count { length words.old ≡ size (sizes_of trace.now.layout) }
    ensures count { length words.new ≡ length words.old }
    ensures words { (p : Place) → memory (sizes_of trace.now.layout) words.new p ≡ with_domains (length trace.now.layout.page_limit) trace.now (memory (sizes_of trace.now.layout) words.old) p }
{
    let layout = &trace.layout;
    let masks = layout.privilege.as_slice();
    let owned = trace.owned.as_slice();
    for domain in 0..layout.domains() as u16 {
        let mask = u64::from(masks[domain as usize]);
        words.set(layout.pages_place(domain), pages_of_domain(owned, domain));
        words.set(layout.priv_place(domain), mask + (mask << 16));
    }
}

/// Each vCPU opens flushed to the opening clock, as it has no translations. Its other words stay 0: it runs, and no
/// word names a frame.
pub fn put_vcpus(layout: &Layout, clock: u64, words: &mut SparseWords)
    requires count { length words.old ≡ size (sizes_of layout.now) }
    ensures count { length words.new ≡ length words.old }
    ensures words { (p : Place) → memory (sizes_of layout.now) words.new p ≡ with_vcpus (length layout.now.vcpu_domain) clock (memory (sizes_of layout.now) words.old) p }
{
    for vcpu in 0..layout.vcpus() {
        words.set(layout.vcpu_place(vcpu, FLUSHED), clock);
    }
}

/// No frame has a machine-to-physical number at the opening.
pub fn put_m2p(layout: &Layout, words: &mut SparseWords)
    requires count { length words.old ≡ size (sizes_of layout.now) }
    ensures count { length words.new ≡ length words.old }
    ensures words { (p : Place) → memory (sizes_of layout.now) words.new p ≡ with_m2p layout.now.frames (memory (sizes_of layout.now) words.old) p }
{
    for frame in 0..layout.frames {
        words.set(layout.m2p_place(frame), NO_NUMBER);
    }
}
