//! The words of a machine, in little memory.
//!
//! A machine of 4,096 frames has 17 MB of words, and most of them are cells that hold nothing: to touch new memory for all took most of the
//! time of a short run. So words that hold nothing but zeros take no memory. This goes by chunks of 32 words, since each frame's three own words
//! come into use in any machine, and larger chunks around them would touch more.
#![tactic(auto)]

ghost use Rattle.std.specs.Prelude.{◌≡◌, ◌<◌, ◌≤◌, ◌+◌, ◌*◌, ◌^◌, ◌&&◌, ℕ, IfOk, if◌then◌else◌, length, nat_eq, nat_le, nat_lt, replicate, set, slice_index, vec_len, vec_capacity};
ghost use Rattle.xp_words.specs.Places.{number, size, sizes_of};
ghost use Rattle.xp_words.specs.declared.place.Place.TheVariants.{Cell};
ghost use Rattle.sparse_words.specs.Kept.{kept_at, in_run, IsStore};

use std::alloc::{AllocError, Global};
use std::marker::Model;
use xp_words::Layout;

// How many words a chunk has.
const CHUNK: usize = 32;

/// All words of a machine, each at its place in the layout. Contracts see the list of them.
///
/// Chunks that hold nothing but zeros take no memory: they share the first block.
#[derive(Drop)]
pub struct SparseWords {
    // How many words there are.
    count: u32,
    // The number of each chunk's block.
    chunks: Vec<u32>,
    // The blocks, of a chunk's words each. There is room for one for each chunk. Memory that is not used yet is not touched.
    store: Vec<u64>,
}

impl Model for SparseWords {
    ghost use Rattle.std.specs.Prelude.{List, ℕ, vec_capacity};
    ghost use Rattle.sparse_words.specs.Kept.{kept_words, IsSparse};

    ghost Value = { List ℕ };

    ghost view = { λ w. kept_words w.count w.chunks.items w.store.items };

    ghost invariant = { λ w. IsSparse w.count w.chunks.items w.store.items (vec_capacity w.store) };
}

// A block that holds one word throughout, for a chunk that has none. There is room for it.
fn add_block(chunks: &mut Vec<u32>, store: &mut Vec<u64>, chunk: usize, word: u64)
    requires kept { IsStore chunks.old.items store.old.items (vec_capacity store.old) }
    requires chunk { chunk < vec_len chunks.old }
    requires few { vec_len chunks.old < 2 ^ 32 }
    requires none { slice_index chunks.old.items chunk ≡ 0 }
    ensures kept { IsStore chunks.new.items store.new.items (vec_capacity store.new) }
    ensures chunks { vec_len chunks.new ≡ vec_len chunks.old }
    ensures own { 0 < slice_index chunks.new.items chunk }
    ensures words { (c i : ℕ) → i < 32 → kept_at chunks.new.items store.new.items c i ≡ (if nat_eq c chunk then word else kept_at chunks.old.items store.old.items c i) }
{
    let used = store.len();
    let _room = store.resize(used + CHUNK, word);
    chunks[chunk] = (used / CHUNK) as u32;
}

// A word of a chunk that has no block yet.
#[inline(never)]
fn set_first(chunks: &mut Vec<u32>, store: &mut Vec<u64>, chunk: usize, index: usize, word: u64)
    requires kept { IsStore chunks.old.items store.old.items (vec_capacity store.old) }
    requires chunk { chunk < vec_len chunks.old }
    requires few { vec_len chunks.old < 2 ^ 32 }
    requires none { slice_index chunks.old.items chunk ≡ 0 }
    requires index { index < 32 }
    ensures kept { IsStore chunks.new.items store.new.items (vec_capacity store.new) }
    ensures chunks { vec_len chunks.new ≡ vec_len chunks.old }
    ensures words { (c i : ℕ) → i < 32 → kept_at chunks.new.items store.new.items c i ≡ (if in_run chunk index 1 c i then word else kept_at chunks.old.items store.old.items c i) }
{
    add_block(chunks, store, chunk, 0);
    store[CHUNK * chunks[chunk] as usize + index] = word;
}

#[inline(always)]
fn set_in_chunk(chunks: &mut Vec<u32>, store: &mut Vec<u64>, chunk: usize, index: usize, word: u64)
    requires kept { IsStore chunks.old.items store.old.items (vec_capacity store.old) }
    requires chunk { chunk < vec_len chunks.old }
    requires few { vec_len chunks.old < 2 ^ 32 }
    requires index { index < 32 }
    ensures kept { IsStore chunks.new.items store.new.items (vec_capacity store.new) }
    ensures chunks { vec_len chunks.new ≡ vec_len chunks.old }
    ensures words { (c i : ℕ) → i < 32 → kept_at chunks.new.items store.new.items c i ≡ (if in_run chunk index 1 c i then word else kept_at chunks.old.items store.old.items c i) }
{
    let block = chunks[chunk];
    if block != 0 {
        store[CHUNK * block as usize + index] = word;
        return;
    }
    if word != 0 {
        set_first(chunks, store, chunk, index, word);
    }
}

fn store_run(words: &mut Vec<u64>, start: usize, count: usize, word: u64)
    requires { start + count ≤ vec_len words.old }
    ensures len { length words.new.items ≡ length words.old.items }
    ensures capacity { vec_capacity words.new ≡ vec_capacity words.old }
    ensures words { (k : ℕ) → slice_index words.new.items k ≡ (if nat_le start k && nat_lt k (start + count) then word else slice_index words.old.items k) }
{
    for place in start..start + count {
        words[place] = word;
    }
}

// The chunk has a block of its own afterwards.
fn own_block(chunks: &mut Vec<u32>, store: &mut Vec<u64>, chunk: usize)
    requires kept { IsStore chunks.old.items store.old.items (vec_capacity store.old) }
    requires chunk { chunk < vec_len chunks.old }
    requires few { vec_len chunks.old < 2 ^ 32 }
    ensures kept { IsStore chunks.new.items store.new.items (vec_capacity store.new) }
    ensures chunks { vec_len chunks.new ≡ vec_len chunks.old }
    ensures own { 0 < slice_index chunks.new.items chunk }
    ensures words { (c i : ℕ) → i < 32 → kept_at chunks.new.items store.new.items c i ≡ kept_at chunks.old.items store.old.items c i }
{
    if chunks[chunk] == 0 {
        add_block(chunks, store, chunk, 0);
    }
}

fn fill_chunk(
    chunks: &mut Vec<u32>,
    store: &mut Vec<u64>,
    chunk: usize,
    first: usize,
    count: usize,
    word: u64,
)
    requires kept { IsStore chunks.old.items store.old.items (vec_capacity store.old) }
    requires chunk { chunk < vec_len chunks.old }
    requires few { vec_len chunks.old < 2 ^ 32 }
    requires inside { first + count ≤ 32 }
    ensures kept { IsStore chunks.new.items store.new.items (vec_capacity store.new) }
    ensures chunks { vec_len chunks.new ≡ vec_len chunks.old }
    ensures words { (c i : ℕ) → i < 32 → kept_at chunks.new.items store.new.items c i ≡ (if in_run chunk first count c i then word else kept_at chunks.old.items store.old.items c i) }
{
    let none = chunks[chunk] == 0;
    if none && word == 0 {
        return;
    }
    if none && count == CHUNK {
        // Its memory is touched once.
        add_block(chunks, store, chunk, word);
        return;
    }
    own_block(chunks, store, chunk);
    store_run(store, CHUNK * chunks[chunk] as usize + first, count, word);
}

// Stores a word at each place from `start` on, below `end`.
fn fill_places(chunks: &mut Vec<u32>, store: &mut Vec<u64>, start: usize, end: usize, word: u64)
    requires kept { IsStore chunks.old.items store.old.items (vec_capacity store.old) }
    requires few { vec_len chunks.old < 2 ^ 32 }
    requires forward { start ≤ end }
    requires inside { end ≤ 32 * vec_len chunks.old }
    ensures kept { IsStore chunks.new.items store.new.items (vec_capacity store.new) }
    ensures chunks { vec_len chunks.new ≡ vec_len chunks.old }
    ensures words { (c i : ℕ) → i < 32 → kept_at chunks.new.items store.new.items c i ≡ (if nat_le start (32 * c + i) && nat_lt (32 * c + i) end then word else kept_at chunks.old.items store.old.items c i) }
{
    for chunk in start / CHUNK..(end + (CHUNK - 1)) / CHUNK {
        let from = start.max(CHUNK * chunk);
        let to = end.min(CHUNK * chunk + CHUNK);
        fill_chunk(chunks, store, chunk, from - CHUNK * chunk, to - from, word);
    }
}

impl SparseWords {
    /// As many words as the layout has, each of them 0.
    pub fn new(alloc: Global, layout: &Layout) -> Result<SparseWords, AllocError>
        ensures { IfOk result (λ w. w ≡ replicate (size (sizes_of layout.now)) 0) }
    {
        let count = layout.words();
        let number = count as usize / CHUNK + 1;
        let mut chunks = Vec::new(alloc);
        chunks.resize(number, 0)?;
        let mut store = Vec::with_capacity(alloc, CHUNK * (number + 1))?;
        store.resize(CHUNK, 0)?;
        Ok(SparseWords {
            count,
            chunks,
            store,
        })
    }

    /// The word at that place.
    #[inline(always)]
    pub fn get(&self, place: u32) -> u64
        requires { place < length self.now }
        ensures { result ≡ slice_index self.now place }
    {
        let block = self.chunks[place as usize / CHUNK];
        self.store[CHUNK * block as usize + place as usize % CHUNK]
    }

    /// Stores a word at that place.
    #[inline(always)]
    pub fn set(&mut self, place: u32, word: u64)
        requires { place < length self.old }
        ensures { self.new ≡ set self.old place word }
    {
        let chunk = place as usize / CHUNK;
        let index = place as usize % CHUNK;
        set_in_chunk(&mut self.chunks, &mut self.store, chunk, index, word);
    }

    /// How many words there are.
    pub fn len(&self) -> u32
        ensures { result ≡ length self.now }
    {
        self.count
    }

    /// Stores a word in so many cells of a frame, from the first one on.
    pub fn fill(&mut self, layout: &Layout, frame: u32, first: u16, count: u16, word: u64)
        requires whole { length self.old ≡ size (sizes_of layout.now) }
        requires frame { frame < layout.now.frames }
        requires inside { first + count ≤ 512 }
        ensures whole { length self.new ≡ length self.old }
        ensures filled { (k : ℕ) → slice_index self.new k ≡ (if nat_le (number (sizes_of layout.now) (Cell frame first)) k && nat_lt k (number (sizes_of layout.now) (Cell frame first) + count) then word else slice_index self.old k) }
    {
        let start = layout.cell_place(frame, 0) as usize + first as usize;
        let end = start + count as usize;
        fill_places(&mut self.chunks, &mut self.store, start, end, word);
    }
}
