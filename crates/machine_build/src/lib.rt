//! The words with which a machine opens, from a trace.
#![tactic(auto)]

ghost use Rattle.std.specs.Prelude.{◌≡◌, IfOk, length, replicate};
ghost use Rattle.xp_words.specs.Places.{sizes_of, size};
ghost use Rattle.trace_text.specs.WellFormed.{IsWellFormed};
ghost use Rattle.machine_build.specs.Opening.{IsOpening};

pub mod laws;
mod map;
mod rows;
mod runs;

use sparse_words::SparseWords;
use std::alloc::{AllocError, Global};
use trace_text::Trace;

/// The words of the trace's machine as it opens, one for each place of its layout.
pub fn opening(alloc: Global, trace: &Trace) -> Result<SparseWords, AllocError>
    requires { IsWellFormed trace.now }
    ensures { IfOk result (λ w. IsOpening trace.now w) }
{
    let mut words = SparseWords::new(alloc, &trace.layout)?;
    put_words(trace, &mut words);
    Ok(words)
}

// All words, where each is 0.
fn put_words(trace: &Trace, words: &mut SparseWords)
    requires formed { IsWellFormed trace.now }
    requires zero { words.old ≡ replicate (size (sizes_of trace.now.layout)) 0 }
    ensures { IsOpening trace.now words.new }
{
    let layout = &trace.layout;
    runs::put_cells(layout, trace.cells.as_slice(), words);
    words.set(0, trace.clock);
    rows::put_domains(trace, words);
    rows::put_vcpus(layout, trace.clock, words);
    rows::put_m2p(layout, words);
    runs::put_owned(layout, trace.owned.as_slice(), words);
    map::put_map(layout, words);
}
