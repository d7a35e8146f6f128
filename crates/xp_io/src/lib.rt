//! Where the bytes of a run come from and where they go: sources and sinks that may fail, with a count of
//! their faults that never falls.
#![tactic(auto)]

mod memory;
mod outside;
mod streams;
mod whole;

pub use memory::{HonestSink, HonestSource, MemorySink, MemorySource};
pub use outside::{FileSource, StdSink, StdSource};
pub use streams::{Failed, Sink, Source};
pub use whole::{Keeper, ReadAllError, read_all, read_into, write_whole};
