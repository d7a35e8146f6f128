ghost use Rattle.std.specs.Prelude.{◌≡◌, ◌≤◌, ◌<◌, ◌+◌, ◌*◌, ◌++◌, ℕ, List, length, take, drop, vec_len, OnOk, OnErr, IfOk};
ghost use Rattle.std.specs.Io.KnownBytes.{Appends};
ghost use Rattle.xp_io.specs.Causes.{AppendsFront, HasCause};
ghost use Rattle.xp_words.specs.Places.{size, sizes_of};
ghost use Rattle.machine_image.specs.Image.{number_bytes, numbers_bytes, sizes_numbers, fixed_numbers, image_of};

use byteorder::{ByteOrder, LittleEndian};
use sparse_words::SparseWords;
use std::alloc::{AllocError, Global};
use std::marker::Model;
use xp_io::{Failed, Sink, write_whole};
use xp_words::Layout;

#[tactic(auto, unfolding(crate::specs::Image::number_bytes))]
fn put_number(out: &mut Vec<u8>, number: u64) -> Result<(), AllocError>
    ensures { OnOk result (out.new.items ≡ out.old.items ++ number_bytes number) }
{
    let mut bytes = [0u8; 8];
    LittleEndian::write_u64(&mut bytes, number);
    out.extend_from_slice(&bytes)
}

fn put_limits(out: &mut Vec<u8>, limits: &[u32]) -> Result<(), AllocError>
    ensures { OnOk result (out.new.items ≡ out.old.items ++ numbers_bytes limits.now) }
{
    for limit in limits {
        put_number(out, u64::from(*limit))?;
    }
    Ok(())
}

// Masks, or the domains of vCPUs.
fn put_each(out: &mut Vec<u8>, numbers: &[u16]) -> Result<(), AllocError>
    ensures { OnOk result (out.new.items ≡ out.old.items ++ numbers_bytes numbers.now) }
{
    for number in numbers {
        put_number(out, u64::from(*number))?;
    }
    Ok(())
}

fn put_words(out: &mut Vec<u8>, words: &SparseWords) -> Result<(), AllocError>
    ensures { OnOk result (out.new.items ≡ out.old.items ++ numbers_bytes words.now) }
{
    for place in 0..words.len() {
        put_number(out, words.get(place))?;
    }
    Ok(())
}

fn put_sizes(out: &mut Vec<u8>, layout: &Layout) -> Result<(), AllocError>
    ensures { OnOk result (out.new.items ≡ out.old.items ++ numbers_bytes (sizes_numbers layout.now)) }
{
    put_number(out, u64::from(layout.frames))?;
    put_number(out, u64::from(layout.limit))?;
    put_number(out, u64::from(layout.domains()))?;
    put_number(out, u64::from(layout.vcpus()))
}

fn put_machine(out: &mut Vec<u8>, layout: &Layout) -> Result<(), AllocError>
    ensures { OnOk result (out.new.items ≡ out.old.items ++ numbers_bytes (fixed_numbers layout.now)) }
{
    put_sizes(out, layout)?;
    put_limits(out, layout.page_limit.as_slice())?;
    put_each(out, layout.privilege.as_slice())?;
    put_each(out, layout.vcpu_domain.as_slice())
}

// What stands before the words of an image with so many of them.
#[tactic(auto, unfolding(crate::specs::Image::image_of))]
fn front(alloc: Global, layout: &Layout, count: u32) -> Result<Vec<u8>, AllocError>
    ensures { IfOk result (λ v. (words : List ℕ) → count ≡ length words → v.items ++ numbers_bytes words ≡ image_of layout.now words) }
{
    let mut out = Vec::with_capacity(alloc, 512)?;
    out.extend_from_slice(b"XPVIMG01")?;
    put_machine(&mut out, layout)?;
    put_number(&mut out, u64::from(count))?;
    Ok(out)
}

/// The image of a machine with these words, all of it in memory: eight bytes for each word, and some 500 more.
pub fn write_image(
    alloc: Global,
    layout: &Layout,
    words: &SparseWords,
) -> Result<Vec<u8>, AllocError>
    requires { length words.now ≡ size (sizes_of layout.now) }
    ensures { IfOk result (λ v. v.items ≡ image_of layout.now words.now) }
{
    let count = words.len();
    let mut out = front(alloc, layout, count)?;
    out.reserve(8 * count as usize)?;
    put_words(&mut out, words)?;
    Ok(out)
}

// How many bytes are written at once.
const PIECE: usize = 65536;

// So many zeros. (The length stays a variable here: at a numeral the list of zeros would be computed.)
fn zeros(alloc: Global, len: usize) -> Result<Vec<u8>, AllocError>
    ensures { IfOk result (λ v. vec_len v ≡ len) }
{
    vec![in alloc; 0u8; len]
}

// Number `index` of the bytes.
#[inline(always)]
#[tactic(auto, unfolding(crate::specs::Image::number_bytes))]
fn set_number(bytes: &mut [u8], index: usize, number: u64)
    requires { 8 * index + 8 ≤ length bytes.old }
    ensures len { length bytes.new ≡ length bytes.old }
    ensures set { bytes.new ≡ take (8 * index) bytes.old ++ (number_bytes number ++ drop 8 (drop (8 * index) bytes.old)) }
{
    LittleEndian::write_u64(&mut bytes[8 * index..], number);
}

// Fills the piece with the words from that place on, and says how many went in.
fn fill(words: &SparseWords, start: u32, piece: &mut [u8]) -> usize
    requires start { start < length words.now }
    requires room { 8 ≤ length piece.old }
    ensures len { length piece.new ≡ length piece.old }
    ensures some { 0 < result }
    ensures inside { start + result ≤ length words.now }
    ensures fits { 8 * result ≤ length piece.new }
    ensures bytes { take (8 * result) piece.new ≡ numbers_bytes (take result (drop start words.now)) }
{
    let count = (piece.len() / 8).min((words.len() - start) as usize);
    for index in 0..count {
        set_number(piece, index, words.get(start + index as u32));
    }
    count
}

// Writes all words, a piece at a time.
fn write_words<K: Sink>(sink: &mut K, words: &SparseWords, piece: &mut [u8]) -> Result<(), Failed>
    requires { 8 ≤ length piece.old }
    ensures whole { OnOk result (Appends (K.taken sink.old) (K.taken sink.new) (numbers_bytes words.now)) }
    ensures front { OnErr result (AppendsFront (K.taken sink.old) (K.taken sink.new) (numbers_bytes words.now)) }
    ensures cause { HasCause (K.faults sink.old) (K.faults sink.new) result }
{
    let mut place = 0;
    while place < words.len() {
        let count = fill(words, place, piece);
        write_whole(sink, &piece[..8 * count])?;
        place += count as u32;
    }
    Ok(())
}

// Writes what stands before the words, and the words.
fn write_both<K: Sink>(
    sink: &mut K,
    front: &[u8],
    words: &SparseWords,
    piece: &mut [u8],
) -> Result<(), Failed>
    requires { 8 ≤ length piece.old }
    ensures whole { OnOk result (Appends (K.taken sink.old) (K.taken sink.new) (front.now ++ numbers_bytes words.now)) }
    ensures front { OnErr result (AppendsFront (K.taken sink.old) (K.taken sink.new) (front.now ++ numbers_bytes words.now)) }
    ensures cause { HasCause (K.faults sink.old) (K.faults sink.new) result }
{
    write_whole(sink, front)?;
    write_words(sink, words, piece)
}

/// An image that is to be written, a piece at a time: its bytes never stand in memory together. Contracts see the list of them.
#[derive(Drop)]
pub struct Image {
    front: Vec<u8>,
    words: SparseWords,
    piece: Vec<u8>,
}

impl Model for Image {
    ghost use Rattle.std.specs.Prelude.{List, ℕ, ◌≡◌, ◌++◌, length};
    ghost use Rattle.machine_image.specs.Image.{numbers_bytes};

    ghost Value = { List ℕ };

    ghost view = { λ i. i.front.items ++ numbers_bytes i.words };

    ghost invariant = { λ i. length i.piece.items ≡ 65536 };
}

impl Image {
    /// The image of a machine with these words.
    pub fn new(alloc: Global, layout: &Layout, words: SparseWords) -> Result<Image, AllocError>
        requires { length words ≡ size (sizes_of layout.now) }
        ensures { IfOk result (λ i. i ≡ image_of layout.now words) }
    {
        let front = front(alloc, layout, words.len())?;
        let piece = zeros(alloc, PIECE)?;
        Ok(Image {
            front,
            words,
            piece,
        })
    }

    /// Writes all of it, in as many pieces as the sink takes.
    pub fn write_to<K: Sink>(&mut self, sink: &mut K) -> Result<(), Failed>
        ensures whole { OnOk result (Appends (K.taken sink.old) (K.taken sink.new) self.old) }
        ensures front { OnErr result (AppendsFront (K.taken sink.old) (K.taken sink.new) self.old) }
        ensures cause { HasCause (K.faults sink.old) (K.faults sink.new) result }
        ensures same { self.new ≡ self.old }
    {
        write_both(sink, &self.front, &self.words, &mut self.piece)
    }
}
