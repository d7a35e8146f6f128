//! The counts of pages of the domains.
ghost use Rattle.std.specs.Prelude.{◌≡◌, ◌<◌, ◌+◌, ◌^◌, ℕ, length, slice_index};
ghost use Rattle.xp_words.specs.Places.{sizes_of, size, memory};
ghost use Rattle.xp_words.specs.RefWords.{bit};
ghost use Rattle.xp_board.specs.Readings.{is_number};
ghost use Rattle.walk_audit.specs.Breaks.{pages_owned};
ghost use Rattle.walk_audit.specs.Order.{FirstVerdict};

use crate::verdict::Verdict;
use word_readers::{owner, pages_word};
use xp_words::Layout;

// One frame more for its owner, if it has one.
fn add_page(counts: &mut [u64], owner: Option<u16>)
    requires few { (d : ℕ) → d < length counts.old → slice_index counts.old d < 2 ^ 32 }
    ensures len { length counts.new ≡ length counts.old }
    ensures each { (d : ℕ) → d < length counts.old → slice_index counts.new d ≡ slice_index counts.old d + bit (is_number owner d) }
{
    if let Some(domain) = owner {
        if usize::from(domain) < counts.len() {
            counts[usize::from(domain)] += 1;
        }
    }
}

/// How many frames each domain owns, by its number.
fn pages_owned(layout: &Layout, words: &[u64]) -> [u64; 16]
    requires { length words.now ≡ size (sizes_of layout.now) }
    ensures { (d : ℕ) → d < 16 → slice_index result d ≡ pages_owned layout.now (memory (sizes_of layout.now) words.now) d }
{
    let mut counts = [0; 16];
    for frame in 0..layout.frames {
        add_page(&mut counts, owner(layout, words, frame));
    }
    counts
}

fn wrong_pages(layout: &Layout, words: &[u64], domain: u16, want: u64) -> Option<Verdict>
    requires domain { domain < length layout.now.page_limit }
    requires words { length words.now ≡ size (sizes_of layout.now) }
    requires want { want ≡ pages_owned layout.now (memory (sizes_of layout.now) words.now) domain }
    ensures { FirstVerdict layout.now (memory (sizes_of layout.now) words.now) 3 domain (domain + 1) result }
{
    let found = pages_word(layout, words, domain);
    if found == want {
        None
    } else {
        Some(Verdict::Pages {
            domain,
            want,
            found,
        })
    }
}

/// The first domain whose count of pages is not the number of its frames.
pub fn first_wrong_pages(layout: &Layout, words: &[u64]) -> Option<Verdict>
    requires { length words.now ≡ size (sizes_of layout.now) }
    ensures { FirstVerdict layout.now (memory (sizes_of layout.now) words.now) 3 0 (length layout.now.page_limit) result }
{
    let counts = pages_owned(layout, words);
    for domain in 0..layout.domains() as u16 {
        let want = counts[usize::from(domain)];
        if let Some(verdict) = wrong_pages(layout, words, domain, want) {
            return Some(verdict);
        }
    }
    None
}
