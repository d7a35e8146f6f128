ghost use Rattle.std.specs.Prelude.{◌≡◌, None};

use crate::streams::{Failed, Sink, Source};
use std::fs;
use std::io::{Read, Write};
use std::rt::Files;

/// A reader of std, such as standard input, as a source. It tells what the reader tells, and counts its errors.
#[derive(Drop)]
pub struct StdSource<R: Read + Drop> {
    from: R,
    faults: u64,
}

impl<R: Read + Drop> StdSource<R> {
    /// What `from` has left is what the source has left. No fault is counted yet.
    pub fn new(from: R) -> StdSource<R>
        ensures from { result.from ≡ from }
        ensures faults { result.faults ≡ 0 }
    {
        StdSource { from, faults: 0 }
    }
}

impl<R: Read + Drop> Source for StdSource<R> {
    ghost left = { λ s. R.remaining s.from };

    ghost faults = { λ s. s.faults };

    fn read(&mut self, into: &mut [u8]) -> Result<usize, Failed> {
        match self.from.read(into) {
            Ok(count) => Ok(count),
            Err(_) => {
                self.faults = self.faults.saturating_add(1);
                Err(Failed)
            }
        }
    }
}

/// A file as a source. It tells nothing of what the file holds, and counts the errors of its reads.
#[derive(Drop)]
pub struct FileSource<F: Read + Drop> {
    // None where it could not be opened: then every read fails.
    from: Option<F>,
    faults: u64,
}

impl<F: Read + Drop> FileSource<F> {
    /// The file at this path. Where it cannot be opened that is told at each read. No fault is counted yet.
    pub fn open<R: Files<File = F>>(rt: &R, path: &str) -> FileSource<F>
        ensures { result.faults ≡ 0 }
    {
        FileSource {
            from: fs::open(rt, path).ok(),
            faults: 0,
        }
    }
}

impl<F: Read + Drop> Source for FileSource<F> {
    ghost left = { λ _. None };

    ghost faults = { λ s. s.faults };

    fn read(&mut self, into: &mut [u8]) -> Result<usize, Failed> {
        let read = match &mut self.from {
            Some(from) => from.read(into).ok(),
            None => None,
        };
        match read {
            Some(count) => Ok(count),
            None => {
                self.faults = self.faults.saturating_add(1);
                Err(Failed)
            }
        }
    }
}

/// A writer of std, such as standard output, as a sink. A writer that takes nothing is at fault too.
#[derive(Drop)]
pub struct StdSink<W: Write + Drop> {
    to: W,
    faults: u64,
}

impl<W: Write + Drop> StdSink<W> {
    /// What `to` has taken, the sink has taken. No fault is counted yet.
    pub fn new(to: W) -> StdSink<W>
        ensures to { result.to ≡ to }
        ensures faults { result.faults ≡ 0 }
    {
        StdSink { to, faults: 0 }
    }
}

impl<W: Write + Drop> Sink for StdSink<W> {
    ghost taken = { λ s. W.contents s.to };

    ghost faults = { λ s. s.faults };

    fn write(&mut self, bytes: &[u8]) -> Result<usize, Failed> {
        match self.to.write(bytes) {
            Ok(0) => {
                self.faults = self.faults.saturating_add(1);
                Err(Failed)
            }
            Ok(count) => Ok(count),
            Err(_) => {
                self.faults = self.faults.saturating_add(1);
                Err(Failed)
            }
        }
    }
}
