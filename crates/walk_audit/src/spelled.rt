//! Words that may not stand where they stand.
ghost use Rattle.std.specs.Prelude.{◌≡◌, ◌<◌, ◌+◌, ◌*◌, length, nat_lt, IsTrue, ◌↔◌, false};
ghost use Rattle.xp_words.specs.KindWords.{kind_read};
ghost use Rattle.xp_words.specs.RefWords.{ref_read};
ghost use Rattle.xp_words.specs.Entries.{is_bit};
ghost use Rattle.xp_words.specs.Places.{sizes_of, size, memory, number, is_place, first_vcpu, first_frame, first_map, first_priv};
ghost use Rattle.xp_board.specs.Spelling.{IsSpelling, IsPriv, is_life, is_kind_in, is_ref_in, is_vcpu_word};
ghost use Rattle.walk_audit.specs.Breaks.{is_map};
ghost use Rattle.walk_audit.specs.Order.{FirstVerdict};

use crate::verdict::Verdict;
use word_readers::word_at;
use xp_words::{KindWord, Layout, LdtBase, Place, RefWord};

/// The last value of the clock.
const LAST_CLOCK: u64 = 68_719_476_734;

fn is_owner(layout: &Layout, owner: u16) -> bool
    ensures { result ≡ nat_lt owner (length layout.now.page_limit) }
{
    u32::from(owner) < layout.domains()
}

fn is_reference(layout: &Layout, word: u64) -> bool
    ensures { result ≡ is_ref_in layout.now (ref_read word) }
{
    match RefWord::read(word) {
        Some(RefWord::Free { .. }) => true,
        Some(RefWord::Owned { owner, count, .. }) => is_owner(layout, owner)
            && count <= layout.limit,
        Some(RefWord::Dying { owner }) => is_owner(layout, owner),
        None => false,
    }
}

fn is_kind(layout: &Layout, word: u64) -> bool
    ensures { result ≡ is_kind_in layout.now (kind_read word) }
{
    match KindWord::read(word) {
        Some(kind) => !kind.validated || kind.number <= u64::from(layout.limit),
        None => false,
    }
}

/// A word of a vCPU: frames of the machine or none; whether it runs; the base of its LDT.
fn is_vcpu_word(layout: &Layout, number: u32, word: u64) -> bool
    ensures { result ≡ is_vcpu_word layout.now number word }
{
    if number < 4 || 8 <= number {
        word <= u64::from(layout.frames)
    } else if number == 6 {
        word < 3
    } else if number == 7 {
        LdtBase::read(word).is_some()
    } else {
        true
    }
}

/// Privileges that are had now were had once, and no bit stands above both.
fn is_privilege(word: u64) -> bool
    ensures { IsTrue result ↔ IsPriv word }
{
    if 1 << 32 <= word {
        return false;
    }
    for domain in 0..16_u32 {
        let has_now = (word >> domain) % 2 == 1;
        let has_ever = (word >> (16 + domain)) % 2 == 1;
        if has_now && !has_ever {
            return false;
        }
    }
    true
}

/// Whether the word may stand there. Cells and machine-to-physical words may be any.
#[tactic(auto, unfolding(xp_board::specs::Spelling::IsSpelling, xp_words::specs::Places::is_place), using(std::proofs::lemmas::Bool::Decides::nat_tests))]
fn is_spelling(layout: &Layout, place: Place, word: u64) -> bool
    requires place { IsTrue (is_place (sizes_of layout.now) place) }
    requires other { is_map place ≡ false }
    ensures { IsTrue result ↔ IsSpelling layout.now place word }
{
    match place {
        Place::Clock => 0 < word && word <= LAST_CLOCK,
        Place::Pages { domain } => word <= u64::from(layout.page_limit.as_slice()[domain as usize]),
        Place::Life { .. } => word <= 16 || word == 255,
        Place::Vcpu { word: number, .. } => is_vcpu_word(layout, number, word),
        Place::Refs { .. } => is_reference(layout, word),
        Place::Kind { .. } => is_kind(layout, word),
        Place::Priv { .. } => is_privilege(word),
        _ => true,
    }
}

#[tactic(auto, using(crate::proofs::Words::spelled_alone, crate::proofs::Words::odd_alone))]
fn odd_word(layout: &Layout, words: &[u64], place: Place) -> Option<Verdict>
    requires place { IsTrue (is_place (sizes_of layout.now) place) }
    requires other { is_map place ≡ false }
    requires words { length words.now ≡ size (sizes_of layout.now) }
    ensures { FirstVerdict layout.now (memory (sizes_of layout.now) words.now) 0 (number (sizes_of layout.now) place) (number (sizes_of layout.now) place + 1) result }
{
    let found = word_at(layout, words, place);
    if is_spelling(layout, place, found) {
        return None;
    }
    Some(Verdict::Word {
        place: u64::from(layout.place(place)),
        found,
    })
}

#[tactic(auto, unfolding(xp_words::specs::Places::is_place, xp_words::specs::Places::number), using(std::proofs::lemmas::Bool::Decides::nat_tests))]
fn odd_of_domain(layout: &Layout, words: &[u64], domain: u16) -> Option<Verdict>
    requires domain { domain < length layout.now.page_limit }
    requires words { length words.now ≡ size (sizes_of layout.now) }
    ensures { FirstVerdict layout.now (memory (sizes_of layout.now) words.now) 0 (1 + 2 * domain) (3 + 2 * domain) result }
{
    if let Some(verdict) = odd_word(layout, words, Place::Pages { domain }) {
        return Some(verdict);
    }
    odd_word(layout, words, Place::Life { domain })
}

fn odd_of_domains(layout: &Layout, words: &[u64]) -> Option<Verdict>
    requires { length words.now ≡ size (sizes_of layout.now) }
    ensures { FirstVerdict layout.now (memory (sizes_of layout.now) words.now) 0 1 (first_vcpu (sizes_of layout.now)) result }
{
    for domain in 0..layout.domains() as u16 {
        if let Some(verdict) = odd_of_domain(layout, words, domain) {
            return Some(verdict);
        }
    }
    None
}

#[tactic(auto, unfolding(xp_words::specs::Places::is_place, xp_words::specs::Places::number), using(std::proofs::lemmas::Bool::Decides::nat_tests))]
fn odd_of_vcpu(layout: &Layout, words: &[u64], vcpu: u32) -> Option<Verdict>
    requires vcpu { vcpu < length layout.now.vcpu_domain }
    requires words { length words.now ≡ size (sizes_of layout.now) }
    ensures { FirstVerdict layout.now (memory (sizes_of layout.now) words.now) 0 (first_vcpu (sizes_of layout.now) + 38 * vcpu) (first_vcpu (sizes_of layout.now) + 38 * vcpu + 38) result }
{
    for word in 0..38 {
        if let Some(verdict) = odd_word(layout, words, Place::Vcpu { vcpu, word }) {
            return Some(verdict);
        }
    }
    None
}

fn odd_of_vcpus(layout: &Layout, words: &[u64]) -> Option<Verdict>
    requires { length words.now ≡ size (sizes_of layout.now) }
    ensures { FirstVerdict layout.now (memory (sizes_of layout.now) words.now) 0 (first_vcpu (sizes_of layout.now)) (first_frame (sizes_of layout.now)) result }
{
    for vcpu in 0..layout.vcpus() {
        if let Some(verdict) = odd_of_vcpu(layout, words, vcpu) {
            return Some(verdict);
        }
    }
    None
}

#[tactic(auto, unfolding(xp_words::specs::Places::is_place, xp_words::specs::Places::number), using(crate::proofs::Words::cells_spelled, crate::proofs::Words::memory_small, std::proofs::lemmas::Bool::Decides::nat_tests))]
fn odd_of_frame(layout: &Layout, words: &[u64], frame: u32) -> Option<Verdict>
    requires frame { frame < layout.now.frames }
    requires words { length words.now ≡ size (sizes_of layout.now) }
    ensures { FirstVerdict layout.now (memory (sizes_of layout.now) words.now) 0 (first_frame (sizes_of layout.now) + 515 * frame) (first_frame (sizes_of layout.now) + 515 * frame + 515) result }
{
    if let Some(verdict) = odd_word(layout, words, Place::Refs { frame }) {
        return Some(verdict);
    }
    odd_word(layout, words, Place::Kind { frame })
}

fn odd_of_frames(layout: &Layout, words: &[u64]) -> Option<Verdict>
    requires { length words.now ≡ size (sizes_of layout.now) }
    ensures { FirstVerdict layout.now (memory (sizes_of layout.now) words.now) 0 (first_frame (sizes_of layout.now)) (first_map (sizes_of layout.now)) result }
{
    for frame in 0..layout.frames {
        if let Some(verdict) = odd_of_frame(layout, words, frame) {
            return Some(verdict);
        }
    }
    None
}

#[tactic(auto, unfolding(xp_words::specs::Places::is_place, xp_words::specs::Places::number, xp_words::specs::Places::size), using(std::proofs::lemmas::Bool::Decides::nat_tests))]
fn odd_privileges(layout: &Layout, words: &[u64]) -> Option<Verdict>
    requires { length words.now ≡ size (sizes_of layout.now) }
    ensures { FirstVerdict layout.now (memory (sizes_of layout.now) words.now) 0 (first_priv (sizes_of layout.now)) (size (sizes_of layout.now)) result }
{
    for domain in 0..layout.domains() as u16 {
        if let Some(verdict) = odd_word(layout, words, Place::Priv { domain }) {
            return Some(verdict);
        }
    }
    None
}

#[tactic(auto, unfolding(xp_words::specs::Places::is_place, xp_words::specs::Places::number, xp_words::specs::Places::size), using(crate::proofs::Words::map_left, std::proofs::lemmas::Bool::Decides::nat_tests))]
/// The first word that may not stand where it stands. The map of free frames is not looked at here.
pub fn first_odd_word(layout: &Layout, words: &[u64]) -> Option<Verdict>
    requires { length words.now ≡ size (sizes_of layout.now) }
    ensures { FirstVerdict layout.now (memory (sizes_of layout.now) words.now) 0 0 (size (sizes_of layout.now)) result }
{
    odd_word(layout, words, Place::Clock)
        .or_else(|| odd_of_domains(layout, words))
        .or_else(|| odd_of_vcpus(layout, words))
        .or_else(|| odd_of_frames(layout, words))
        .or_else(|| odd_privileges(layout, words))
}
