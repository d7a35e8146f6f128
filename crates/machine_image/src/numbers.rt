ghost use Rattle.std.specs.Prelude.{◌≡◌, ◌<◌, ◌≤◌, ◌+◌, ◌*◌, ◌^◌, ◌++◌, [], ℕ, length, map, slice_index, take, drop, vec_len, vec_capacity, OnOk};
ghost use Rattle.std.specs.List.{range_with_len};
ghost use Rattle.machine_image.specs.Image.{number_bytes, numbers_bytes};
ghost use Rattle.machine_image.specs.Reading.{field_at};

use byteorder::{ByteOrder, LittleEndian};
use std::alloc::{AllocError, Global};
use std::marker::Model;
use xp_io::Keeper;

/// Bytes, kept as the numbers that each eight of them make: so the words of an image stand in memory once. Contracts see the list of the bytes.
#[derive(Drop)]
pub struct Numbers {
    whole: Vec<u64>,
    // The bytes behind the last whole number, fewer than eight.
    rest: Vec<u8>,
}

impl Model for Numbers {
    ghost use Rattle.std.specs.Prelude.{List, ℕ, ◌<◌, ◌≤◌, ◌^◌, ◌++◌, length, vec_len};
    ghost use Rattle.machine_image.specs.Image.{numbers_bytes};

    ghost Value = { List ℕ };

    ghost view = { λ n. numbers_bytes n.whole.items ++ n.rest.items };

    ghost invariant = { λ n. (length n.rest.items < 8) × (vec_len n.whole ≤ 2 ^ 60) };
}

// Number `index` of the bytes.
#[inline(always)]
#[tactic(auto, unfolding(crate::specs::Reading::field_at))]
fn number(bytes: &[u8], index: usize) -> u64
    requires { 8 * index + 8 ≤ length bytes.now }
    ensures { result ≡ field_at bytes.now index }
{
    LittleEndian::read_u64(&bytes[8 * index..])
}

// The same, by its bytes.
#[inline(always)]
fn spelled(bytes: &[u8], index: usize) -> u64
    requires { 8 * index + 8 ≤ length bytes.now }
    ensures { number_bytes result ≡ take 8 (drop (8 * index) bytes.now) }
{
    number(bytes, index)
}

// The first so many numbers of the bytes, behind the others. There is room for them.
fn push_numbers(whole: &mut Vec<u64>, bytes: &[u8], count: usize)
    requires there { 8 * count ≤ length bytes.now }
    requires room { vec_len whole.old + count ≤ vec_capacity whole.old }
    ensures bytes { numbers_bytes whole.new.items ≡ numbers_bytes whole.old.items ++ take (8 * count) bytes.now }
    ensures len { vec_len whole.new ≡ vec_len whole.old + count }
{
    for index in 0..count {
        whole.push_reserved(spelled(bytes, index));
    }
}

// More numbers than any memory holds, so that their bytes can be counted.
const MOST: usize = 1_152_921_504_606_846_976;

// More bytes, of which the first make up the number that was begun.
fn keep_more(whole: &mut Vec<u64>, rest: &mut Vec<u8>, bytes: &[u8]) -> Result<(), AllocError>
    requires few { length rest.old.items < 8 }
    requires small { vec_len whole.old ≤ 2 ^ 60 }
    ensures kept { OnOk result (numbers_bytes whole.new.items ++ rest.new.items ≡ (numbers_bytes whole.old.items ++ rest.old.items) ++ bytes.now) }
    ensures few { length rest.new.items < 8 }
    ensures small { vec_len whole.new ≤ 2 ^ 60 }
{
    let more = bytes.len() / 8 + 1;
    if MOST - whole.len() < more {
        return Err(AllocError);
    }
    whole.reserve(more)?;
    let missing = (8 - rest.len()).min(bytes.len());
    let (front, back) = bytes.split_at(missing);
    rest.extend_from_slice(front)?;
    if rest.len() < 8 {
        return Ok(());
    }
    whole.push_reserved(spelled(rest, 0));
    rest.clear();
    let count = back.len() / 8;
    push_numbers(whole, back, count);
    rest.extend_from_slice(&back[8 * count..])?;
    Ok(())
}

fn len_in(whole: &[u64], rest: &[u8]) -> usize
    requires few { length rest.now < 8 }
    requires small { length whole.now ≤ 2 ^ 60 }
    ensures len { result ≡ length (numbers_bytes whole.now ++ rest.now) }
    ensures bytes { (i : ℕ) → slice_index (numbers_bytes whole.now ++ rest.now) i < 256 }
{
    8 * whole.len() + rest.len()
}

fn number_in(whole: &[u64], rest: &[u8], index: usize) -> u64
    requires few { length rest.now < 8 }
    requires there { 8 * index + 8 ≤ length (numbers_bytes whole.now ++ rest.now) }
    ensures { result ≡ field_at (numbers_bytes whole.now ++ rest.now) index }
{
    whole[index]
}

fn numbers_in<'a>(whole: &'a [u64], rest: &[u8], first: usize, count: usize) -> &'a [u64]
    requires few { length rest.now < 8 }
    requires there { 8 * (first + count) ≤ length (numbers_bytes whole.now ++ rest.now) }
    ensures { result.now ≡ map (λ j. field_at (numbers_bytes whole.now ++ rest.now) j) (range_with_len first count) }
{
    &whole[first..first + count]
}

impl Numbers {
    /// No bytes.
    pub fn new(alloc: Global) -> Numbers
        ensures { result ≡ [] }
    {
        Numbers {
            whole: Vec::new(alloc),
            rest: Vec::new(alloc),
        }
    }

    /// How many bytes there are.
    pub(crate) fn len(&self) -> usize
        ensures len { result ≡ length self.now }
        ensures bytes { (i : ℕ) → slice_index self.now i < 256 }
    {
        len_in(&self.whole, &self.rest)
    }

    /// Number `index`, which is whole.
    pub(crate) fn get(&self, index: usize) -> u64
        requires { 8 * index + 8 ≤ length self.now }
        ensures { result ≡ field_at self.now index }
    {
        number_in(&self.whole, &self.rest, index)
    }

    /// So many numbers from number `first` on.
    pub(crate) fn run(&self, first: usize, count: usize) -> &[u64]
        requires { 8 * (first + count) ≤ length self.now }
        ensures { result.now ≡ map (λ j. field_at self.now j) (range_with_len first count) }
    {
        numbers_in(&self.whole, &self.rest, first, count)
    }
}

impl Keeper for Numbers {
    ghost kept = { λ n. n };

    fn count(&self) -> usize {
        self.len()
    }

    fn keep(&mut self, bytes: &[u8]) -> Result<(), AllocError> {
        keep_more(&mut self.whole, &mut self.rest, bytes)
    }
}
