ghost use Rattle.std.specs.Prelude.{◌≡◌, ◌<◌, ℕ, length, IfOk};
ghost use Rattle.xp_words.specs.Machine.{IsMachine};
ghost use Rattle.xp_words.specs.Places.{size, sizes_of, memory};
ghost use Rattle.reference_recount.specs.Recounted.{IsReadable, IsTally, tally_at};
ghost use Rattle.walk_audit.specs.Judged.{Judged};
ghost use Rattle.walk_audit.specs.Order.{PassedUpTo, FirstFrom};

use crate::contexts::first_bad_context;
use crate::counted::first_wrong_count;
use crate::dead::first_unburied;
use crate::entries::first_bad_entry;
use crate::held::first_held;
use crate::mapped::first_wrong_map;
use crate::pages::first_wrong_pages;
use crate::spelled::first_odd_word;
use crate::stamped::first_late;
use crate::verdict::Verdict;
use reference_recount::{Tally, recount};
use std::alloc::{AllocError, Global};
use xp_words::Layout;

/// The first of the checks that need the tallies of references.
fn first_unsound(layout: &Layout, words: &[u64], tallies: &[Tally]) -> Option<Verdict>
    requires words { length words.now ≡ size (sizes_of layout.now) }
    requires readable { IsReadable layout.now (memory (sizes_of layout.now) words.now) }
    requires passed { PassedUpTo layout.now (memory (sizes_of layout.now) words.now) 2 }
    requires all { length tallies.now ≡ layout.now.frames }
    requires each { (g : ℕ) → g < layout.now.frames → IsTally layout.now (memory (sizes_of layout.now) words.now) g (tally_at tallies.now g) }
    ensures { FirstFrom layout.now (memory (sizes_of layout.now) words.now) result }
{
    if let Some(verdict) = first_wrong_count(layout, words, tallies) {
        return Some(verdict);
    }
    if let Some(verdict) = first_wrong_pages(layout, words) {
        return Some(verdict);
    }
    if let Some(verdict) = first_bad_entry(layout, words) {
        return Some(verdict);
    }
    if let Some(verdict) = first_bad_context(layout, words) {
        return Some(verdict);
    }
    if let Some(verdict) = first_late(layout, words) {
        return Some(verdict);
    }
    if let Some(verdict) = first_unburied(layout, words) {
        return Some(verdict);
    }
    first_wrong_map(layout, words)
}

/// Whether these words are sound where no vCPU holds anything and none has a translation; and what breaks it first. It reads each word a few times, those of
/// frames once more for each dead domain, and takes memory for a few numbers a frame.
pub fn audit(alloc: Global, layout: &Layout, words: &[u64]) -> Result<Verdict, AllocError>
    requires machine { IsMachine layout.now }
    requires words { length words.now ≡ size (sizes_of layout.now) }
    ensures { IfOk result (λ v. Judged layout.now words.now v) }
{
    if let Some(verdict) = first_odd_word(layout, words) {
        return Ok(verdict);
    }
    if let Some(verdict) = first_held(layout, words) {
        return Ok(verdict);
    }
    let tallies = recount(alloc, layout, words)?;
    Ok(first_unsound(layout, words, &tallies).unwrap_or(Verdict::Sound))
}
