//! Words of vCPUs that name frames.
ghost use Rattle.std.specs.Prelude.{◌≡◌, ◌<◌, ◌+◌, ◌*◌, length, IsTrue, ◌↔◌, MatchOption};
ghost use Rattle.xp_words.specs.declared.place.Place.TheVariants.{Vcpu};
ghost use Rattle.xp_words.specs.Places.{sizes_of, size, memory};
ghost use Rattle.xp_board.specs.Valid.{is_live_context};
ghost use Rattle.reference_recount.specs.Recounted.{IsReadable};
ghost use Rattle.walk_audit.specs.Breaks.{IsBadContext};
ghost use Rattle.walk_audit.specs.Order.{FirstVerdict};

use crate::verdict::Verdict;
use word_readers::{kind_of, owner, vcpu_word};
use xp_words::Layout;

/// The bases, and the words of the GDT and the LDT.
fn names_live_frame(word: u32) -> bool
    ensures { result ≡ is_live_context word }
{
    word < 2 || 8 <= word
}

/// The frame that such a word names.
fn frame_named(layout: &Layout, words: &[u64], vcpu: u32, word: u32) -> Option<u32>
    requires vcpu { vcpu < length layout.now.vcpu_domain }
    requires word { word < 38 }
    requires context { IsTrue (is_live_context word) }
    requires words { length words.now ≡ size (sizes_of layout.now) }
    requires readable { IsReadable layout.now (memory (sizes_of layout.now) words.now) }
    ensures { MatchOption result (memory (sizes_of layout.now) words.now (Vcpu vcpu word) ≡ 0) (λ f. (memory (sizes_of layout.now) words.now (Vcpu vcpu word) ≡ f + 1) × (f < layout.now.frames)) }
{
    // So the prover knows that there are few frames.
    let _domains = layout.domains();
    let name = vcpu_word(layout, words, vcpu, word);
    if name == 0 {
        None
    } else {
        Some((name - 1) as u32)
    }
}

fn is_bad_context(layout: &Layout, words: &[u64], vcpu: u32, word: u32) -> bool
    requires vcpu { vcpu < length layout.now.vcpu_domain }
    requires word { word < 38 }
    requires words { length words.now ≡ size (sizes_of layout.now) }
    requires readable { IsReadable layout.now (memory (sizes_of layout.now) words.now) }
    ensures { IsTrue result ↔ IsBadContext layout.now (memory (sizes_of layout.now) words.now) vcpu word }
{
    if !names_live_frame(word) {
        return false;
    }
    let domain = layout.vcpu_domain.as_slice()[vcpu as usize];
    match frame_named(layout, words, vcpu, word) {
        Some(frame) => {
            !kind_of(layout, words, frame).validated || owner(layout, words, frame) != Some(domain)
        }
        None => false,
    }
}

fn bad_context(layout: &Layout, words: &[u64], vcpu: u32, word: u32) -> Option<Verdict>
    requires vcpu { vcpu < length layout.now.vcpu_domain }
    requires word { word < 38 }
    requires words { length words.now ≡ size (sizes_of layout.now) }
    requires readable { IsReadable layout.now (memory (sizes_of layout.now) words.now) }
    ensures { FirstVerdict layout.now (memory (sizes_of layout.now) words.now) 5 (38 * vcpu + word) (38 * vcpu + word + 1) result }
{
    if is_bad_context(layout, words, vcpu, word) {
        Some(Verdict::Context {
            vcpu,
            word: word as u8,
        })
    } else {
        None
    }
}

fn first_of_vcpu(layout: &Layout, words: &[u64], vcpu: u32) -> Option<Verdict>
    requires vcpu { vcpu < length layout.now.vcpu_domain }
    requires words { length words.now ≡ size (sizes_of layout.now) }
    requires readable { IsReadable layout.now (memory (sizes_of layout.now) words.now) }
    ensures { FirstVerdict layout.now (memory (sizes_of layout.now) words.now) 5 (38 * vcpu) (38 * vcpu + 38) result }
{
    for word in 0..38 {
        if let Some(verdict) = bad_context(layout, words, vcpu, word) {
            return Some(verdict);
        }
    }
    None
}

/// The first word of a vCPU that has to name a live frame of its domain, and names another one.
pub fn first_bad_context(layout: &Layout, words: &[u64]) -> Option<Verdict>
    requires words { length words.now ≡ size (sizes_of layout.now) }
    requires readable { IsReadable layout.now (memory (sizes_of layout.now) words.now) }
    ensures { FirstVerdict layout.now (memory (sizes_of layout.now) words.now) 5 0 (38 * length layout.now.vcpu_domain) result }
{
    for vcpu in 0..layout.vcpus() {
        if let Some(verdict) = first_of_vcpu(layout, words, vcpu) {
            return Some(verdict);
        }
    }
    None
}
