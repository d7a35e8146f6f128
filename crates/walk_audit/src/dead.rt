//! What is left of dead domains.
ghost use Rattle.std.specs.Prelude.{◌≡◌, ◌<◌, ◌+◌, length, IsTrue, ◌↔◌, ℕ, Some};
ghost use Rattle.xp_words.specs.declared.place.Place.TheVariants.{Refs, Kind, Vcpu};
ghost use Rattle.xp_words.specs.Places.{sizes_of, size, memory};
ghost use Rattle.xp_board.specs.Readings.{owner_of, is_context, domain_of};
ghost use Rattle.reference_recount.specs.Recounted.{IsReadable};
ghost use Rattle.walk_audit.specs.Breaks.{IsUnburied};
ghost use Rattle.walk_audit.specs.Burials.{HasMark, IsUnstopped, LeavesFrame, LeavesVcpu};
ghost use Rattle.walk_audit.specs.Order.{FirstVerdict};

use crate::verdict::Verdict;
use word_readers::{is_allocated, kind_of, life_word, owner, vcpu_word};
use xp_words::Layout;

/// The life word of a dead domain.
const DEAD: u64 = 255;
/// The number of the run word of a vCPU, and what it is where the vCPU is stopped.
const RUN: u32 = 6;

const STOPPED: u64 = 1;

/// Whether the frame is that domain's, and allocated, pinned or kept.
fn has_mark(layout: &Layout, words: &[u64], domain: u16, frame: u32) -> bool
    requires frame { frame < layout.now.frames }
    requires words { length words.now ≡ size (sizes_of layout.now) }
    requires readable { IsReadable layout.now (memory (sizes_of layout.now) words.now) }
    ensures { IsTrue result ↔ HasMark (memory (sizes_of layout.now) words.now) domain frame }
{
    let kind = kind_of(layout, words, frame);
    owner(layout, words, frame) == Some(domain)
        && (is_allocated(layout, words, frame) || kind.pinned || kind.kept)
}

fn leaves_frame(layout: &Layout, words: &[u64], domain: u16) -> bool
    requires words { length words.now ≡ size (sizes_of layout.now) }
    requires readable { IsReadable layout.now (memory (sizes_of layout.now) words.now) }
    ensures { IsTrue result ↔ LeavesFrame layout.now (memory (sizes_of layout.now) words.now) domain }
{
    for frame in 0..layout.frames {
        if has_mark(layout, words, domain, frame) {
            return true;
        }
    }
    false
}

/// Whether the vCPU is not stopped, or names a frame.
fn is_unstopped(layout: &Layout, words: &[u64], vcpu: u32) -> bool
    requires vcpu { vcpu < length layout.now.vcpu_domain }
    requires words { length words.now ≡ size (sizes_of layout.now) }
    ensures { IsTrue result ↔ IsUnstopped (memory (sizes_of layout.now) words.now) vcpu }
{
    if vcpu_word(layout, words, vcpu, RUN) != STOPPED {
        return true;
    }
    for word in 0..38 {
        let is_context = word < 4 || 8 <= word;
        if is_context && vcpu_word(layout, words, vcpu, word) != 0 {
            return true;
        }
    }
    false
}

fn leaves_vcpu(layout: &Layout, words: &[u64], domain: u16) -> bool
    requires words { length words.now ≡ size (sizes_of layout.now) }
    ensures { IsTrue result ↔ LeavesVcpu layout.now (memory (sizes_of layout.now) words.now) domain }
{
    for vcpu in 0..layout.vcpus() {
        let is_own = layout.vcpu_domain.as_slice()[vcpu as usize] == domain;
        if is_own && is_unstopped(layout, words, vcpu) {
            return true;
        }
    }
    false
}

#[tactic(auto, using(crate::proofs::Burial::is_left, crate::proofs::Burial::is_buried, crate::proofs::Burial::memory_outside))]
fn is_unburied(layout: &Layout, words: &[u64], domain: u16) -> bool
    requires domain { domain < length layout.now.page_limit }
    requires words { length words.now ≡ size (sizes_of layout.now) }
    requires readable { IsReadable layout.now (memory (sizes_of layout.now) words.now) }
    ensures { IsTrue result ↔ IsUnburied layout.now (memory (sizes_of layout.now) words.now) domain }
{
    life_word(layout, words, domain) == DEAD
        && (leaves_frame(layout, words, domain) || leaves_vcpu(layout, words, domain))
}

fn unburied(layout: &Layout, words: &[u64], domain: u16) -> Option<Verdict>
    requires domain { domain < length layout.now.page_limit }
    requires words { length words.now ≡ size (sizes_of layout.now) }
    requires readable { IsReadable layout.now (memory (sizes_of layout.now) words.now) }
    ensures { FirstVerdict layout.now (memory (sizes_of layout.now) words.now) 7 domain (domain + 1) result }
{
    if is_unburied(layout, words, domain) {
        Some(Verdict::Dead { domain })
    } else {
        None
    }
}

/// The first dead domain that has a frame with a mark, or a vCPU that is not stopped or names a frame.
pub fn first_unburied(layout: &Layout, words: &[u64]) -> Option<Verdict>
    requires words { length words.now ≡ size (sizes_of layout.now) }
    requires readable { IsReadable layout.now (memory (sizes_of layout.now) words.now) }
    ensures { FirstVerdict layout.now (memory (sizes_of layout.now) words.now) 7 0 (length layout.now.page_limit) result }
{
    for domain in 0..layout.domains() as u16 {
        if let Some(verdict) = unburied(layout, words, domain) {
            return Some(verdict);
        }
    }
    None
}
