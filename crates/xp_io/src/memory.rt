ghost use Rattle.std.specs.Prelude.{◌≡◌, ◌≤◌, ◌<◌, ℕ, ◌-◌, ◌+◌, List, [], ◌++◌, take, drop, length, vec_len, vec_capacity, Some, None, IfOk, IsOk};

use crate::streams::{Failed, Sink, Source};
use std::alloc::{AllocError, Global};

// Moves the bytes from `at` on to the front of `into`, as many as go in.
fn move_next(bytes: &[u8], at: usize, into: &mut [u8]) -> usize
    requires { at ≤ length bytes.now }
    ensures within { result ≤ length into.new }
    ensures there { at + result ≤ length bytes.now }
    ensures moved { drop at bytes.now ≡ take result into.new ++ drop (at + result) bytes.now }
    ensures end { result ≡ 0 → 0 < length into.new → drop (at + result) bytes.now ≡ [] }
{
    let count = into.len().min(bytes.len() - at);
    let next = at + count;
    into[..count].copy_from_slice(&bytes[at..next]);
    count
}

/// Bytes in memory, as a source that fails at the reads that it is told to: for tests of what a failure leaves.
#[derive(Drop)]
pub struct MemorySource {
    bytes: Vec<u8>,
    at: usize,
    most: usize,
    calls: u64,
    fails: Vec<u64>,
    faults: u64,
    ghost within: { at ≤ vec_len bytes },
    ghost some: { 0 < most },
}

impl MemorySource {
    ghost use Rattle.xp_io.specs.Memory.{source_left, source_fails, source_calls};

    /// A source of these bytes. `fails` names the reads that fail, counted from 1.
    pub fn new(bytes: Vec<u8>, fails: Vec<u64>) -> MemorySource
        ensures left { source_left result ≡ bytes.items }
        ensures fails { source_fails result ≡ fails.items }
        ensures calls { source_calls result ≡ 0 }
    {
        MemorySource::in_pieces(bytes, usize::MAX, fails)
    }

    /// The same, of which a read gives at most `most` bytes.
    pub fn in_pieces(bytes: Vec<u8>, most: usize, fails: Vec<u64>) -> MemorySource
        requires { 0 < most }
        ensures left { source_left result ≡ bytes.items }
        ensures fails { source_fails result ≡ fails.items }
        ensures calls { source_calls result ≡ 0 }
    {
        MemorySource {
            bytes,
            at: 0,
            most,
            calls: 0,
            fails,
            faults: 0,
        }
    }
}

impl Source for MemorySource {
    ghost left = { λ s. Some (drop s.at s.bytes.items) };

    ghost faults = { λ s. s.faults };

    fn read(&mut self, into: &mut [u8]) -> Result<usize, Failed> {
        self.calls = self.calls.saturating_add(1);
        if self.fails.contains(&self.calls) {
            self.faults = self.faults.saturating_add(1);
            return Err(Failed);
        }
        let room = into.len().min(self.most);
        let count = move_next(&self.bytes, self.at, &mut into[..room]);
        self.at += count;
        Ok(count)
    }
}

/// Bytes in memory, as a source that never fails.
#[derive(Drop)]
pub struct HonestSource {
    bytes: Vec<u8>,
    at: usize,
    ghost within: { at ≤ vec_len bytes },
}

impl HonestSource {
    ghost use Rattle.xp_io.specs.Memory.{honest_left};

    /// Reads take from the front, as much as they have room for.
    pub fn new(bytes: Vec<u8>) -> HonestSource
        ensures { honest_left result ≡ bytes.items }
    {
        HonestSource { bytes, at: 0 }
    }
}

impl Source for HonestSource {
    ghost left = { λ s. Some (drop s.at s.bytes.items) };

    ghost faults = { λ _. 0 };

    fn read(&mut self, into: &mut [u8]) -> Result<usize, Failed> {
        let count = move_next(&self.bytes, self.at, into);
        self.at += count;
        Ok(count)
    }
}

/// A sink that drops what it takes, never fails, and tells nothing of it.
#[derive(Drop)]
pub struct HonestSink;

impl HonestSink {
    /// It keeps nothing, so it takes no memory.
    pub fn new() -> HonestSink {
        HonestSink
    }
}

impl Sink for HonestSink {
    ghost taken = { λ _. None };

    ghost faults = { λ _. 0 };

    fn write(&mut self, bytes: &[u8]) -> Result<usize, Failed> {
        Ok(bytes.len())
    }
}

/// A sink that keeps what it takes, in room of a fixed size. A write that finds no room is a fault.
#[derive(Drop)]
pub struct MemorySink {
    taken: Vec<u8>,
    most: usize,
    calls: u64,
    fails: Vec<u64>,
    faults: u64,
    ghost some: { 0 < most },
    ghost room: { vec_len taken ≤ vec_capacity taken },
}

impl MemorySink {
    ghost use Rattle.xp_io.specs.Memory.{sink_taken};

    /// Room for `room` bytes, of which a call takes at most `most`. `fails` names the calls that fail,
    /// counted from 1.
    pub fn new(
        alloc: Global,
        room: usize,
        most: usize,
        fails: Vec<u64>,
    ) -> Result<MemorySink, AllocError>
        requires { 0 < most }
        ensures { IfOk result (λ s. sink_taken s ≡ []) }
    {
        Ok(MemorySink {
            taken: Vec::with_capacity(alloc, room)?,
            most,
            calls: 0,
            fails,
            faults: 0,
        })
    }

    /// What it took.
    pub fn bytes(&self) -> &[u8]
        ensures { result.now ≡ sink_taken self.now }
    {
        &self.taken
    }
}

impl Sink for MemorySink {
    ghost taken = { λ s. Some s.taken.items };

    ghost faults = { λ s. s.faults };

    fn write(&mut self, bytes: &[u8]) -> Result<usize, Failed> {
        self.calls = self.calls.saturating_add(1);
        let room = self.taken.capacity() - self.taken.len();
        if room == 0 || self.fails.contains(&self.calls) {
            self.faults = self.faults.saturating_add(1);
            return Err(Failed);
        }
        let count = bytes.len().min(self.most).min(room);
        self.taken.extend_from_slice(&bytes[..count]).unwrap();
        Ok(count)
    }
}
