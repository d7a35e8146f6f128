//! Which block is claimed: the first aligned one that is wholly free.
ghost use Rattle.std.specs.Prelude.{◌≡◌, ◌≢◌, ◌+◌, ◌*◌, ◌/◌, ◌%◌, ◌^◌, ◌<◌, ◌≤◌, ℕ, [], length, true, false, None, IfOk, IfSome, IfNone, slice_index};
ghost use Rattle.arrayvec.specs.ArrayVec.{array_vec_len};
ghost use Rattle.xp_words.specs.Places.{map_words, sizes_of};
ghost use Rattle.xp_words.specs.RefWords.{ref_read};
ghost use Rattle.xp_words.specs.declared.refs.RefWord.TheVariants.{Free};
ghost use Rattle.xp_board.specs.Readings.{is_free};
ghost use Rattle.step_maker.specs.Holds.{MayWork};
ghost use Rattle.step_maker.specs.Visits.{Does};
ghost use Rattle.frame_claims.specs.Choosing.{FreeWord, IsFound, Looks, NoneFree, SeenTaken};
ghost use Rattle.frame_claims.specs.Found.{BlockBy, ChosenBy, FirstOf, FullBy, HintedBy, InWordBy, RunBy, ScannedBy, TriedBy, WordBy, block_of};

use arrayvec::ArrayVec;
use claim_words::look_map;
use frame_words::look_refs;
use xp_board::Port;
use xp_words::RefWord;

/// The stamps of a block's frames, in order.
pub(crate) type Stamps = ArrayVec<u64, 512>;

/// A block that was found wholly free: its first frame, and one that has the greatest stamp of them.
#[derive(Clone, Copy)]
pub(crate) struct Chosen {
    pub first: u32,
    pub latest: u32,
    pub stamp: u64,
}

// The stamp of a free frame.
#[tactic(auto, using(crate::proofs::Finding::free_told), unfolding(xp_board::specs::Readings::is_free))]
fn free_stamp(word: u64) -> Option<u64>
    ensures some { IfSome result (λ stamp. FreeWord word stamp) }
    ensures none { IfNone result (is_free word ≡ false) }
{
    match RefWord::read(word) {
        Some(RefWord::Free { stamp }) => Some(stamp),
        _ => None,
    }
}

// Looks at the reference words of a block, up to the first that is not free.
fn try_block<P: Port>(port: &mut P, first: u32, size: u32, stamps: &mut Stamps) -> Option<Chosen>
    requires some { 0 < size }
    requires few { size ≤ 512 }
    requires inside { first + size ≤ (P.value port.old).post.machine.frames }
    requires aligned { first % size ≡ 0 }
    requires may { MayWork (P.value port.old) }
    ensures looks { Looks (P.value port.old) (P.value port.new) }
    ensures found { IfSome result (λ c. IsFound (P.value port.old) (P.value port.new) size stamps.new.items c) }
    ensures none { IfNone result (SeenTaken (P.value port.old) (P.value port.new) first size) }
    ensures visits { Does (P.value port.old) (P.value port.new) (λ vs. TriedBy size first (block_of result stamps.new.items) vs) }
{
    stamps.clear();
    let mut latest = first;
    let mut greatest = 0;
    for frame in first..first + size {
        let word = look_refs(port, frame);
        let stamp = free_stamp(word)?;
        stamps.push(stamp);
        if stamp >= greatest {
            greatest = stamp;
            latest = frame;
        }
    }
    Some(Chosen {
        first,
        latest,
        stamp: greatest,
    })
}

// The block with that number in a word of the map, where all its bits are set.
fn try_bits<P: Port>(
    port: &mut P,
    word: u32,
    bits: u64,
    at: u32,
    size: u32,
    stamps: &mut Stamps,
) -> Option<Chosen>
    requires some { 0 < size }
    requires few { size ≤ 64 }
    requires parts { 64 % size ≡ 0 }
    requires word { word < map_words (sizes_of (P.value port.old).post.machine) }
    requires at { at < 64 / size }
    requires may { MayWork (P.value port.old) }
    ensures looks { Looks (P.value port.old) (P.value port.new) }
    ensures found { IfSome result (λ c. IsFound (P.value port.old) (P.value port.new) size stamps.new.items c) }
    ensures visits { Does (P.value port.old) (P.value port.new) (λ vs. BlockBy (P.value port.old).post.machine size word bits at (block_of result stamps.new.items) vs) }
{
    let all = u64::MAX >> (64 - size);
    let first = 64 * word + size * at;
    if bits >> (size * at) & all != all || first + size > port.layout().frames {
        return None;
    }
    try_block(port, first, size, stamps)
}

// A block of at most 64 frames by one word of the map.
fn in_word<P: Port>(
    port: &mut P,
    word: u32,
    bits: u64,
    size: u32,
    stamps: &mut Stamps,
) -> Option<Chosen>
    requires some { 0 < size }
    requires few { size ≤ 64 }
    requires parts { 64 % size ≡ 0 }
    requires word { word < map_words (sizes_of (P.value port.old).post.machine) }
    requires may { MayWork (P.value port.old) }
    ensures looks { Looks (P.value port.old) (P.value port.new) }
    ensures found { IfSome result (λ c. IsFound (P.value port.old) (P.value port.new) size stamps.new.items c) }
    ensures visits { Does (P.value port.old) (P.value port.new) (λ vs. InWordBy (P.value port.old).post.machine size word bits (block_of result stamps.new.items) vs) }
{
    if bits == 0 {
        return None;
    }
    for at in 0..64 / size {
        let chosen = try_bits(port, word, bits, at, size, stamps);
        if chosen.is_some() {
            return chosen;
        }
    }
    None
}

// A block of at most 64 frames by the map.
fn by_words<P: Port>(port: &mut P, size: u32, stamps: &mut Stamps) -> Option<Chosen>
    requires some { 0 < size }
    requires few { size ≤ 64 }
    requires parts { 64 % size ≡ 0 }
    requires may { MayWork (P.value port.old) }
    ensures looks { Looks (P.value port.old) (P.value port.new) }
    ensures found { IfSome result (λ c. IsFound (P.value port.old) (P.value port.new) size stamps.new.items c) }
    ensures visits { Does (P.value port.old) (P.value port.new) (λ vs. FirstOf (WordBy (P.value port.old).post.machine size) (map_words (sizes_of (P.value port.old).post.machine)) (block_of result stamps.new.items) vs) }
{
    for word in 0..port.layout().map_words() {
        let bits = look_map(port, word);
        let chosen = in_word(port, word, bits, size, stamps);
        if chosen.is_some() {
            return chosen;
        }
    }
    None
}

// Whether all bits of these words of the map are set.
fn are_full<P: Port>(port: &mut P, first: u32, count: u32) -> bool
    requires inside { first + count ≤ map_words (sizes_of (P.value port.old).post.machine) }
    requires may { MayWork (P.value port.old) }
    ensures looks { Looks (P.value port.old) (P.value port.new) }
    ensures visits { Does (P.value port.old) (P.value port.new) (λ vs. FullBy first count result vs) }
{
    for word in first..first + count {
        if look_map(port, word) != u64::MAX {
            return false;
        }
    }
    true
}

// A block of so many times 64 frames, where all its bits are set.
fn try_run<P: Port>(port: &mut P, block: u32, words: u32, stamps: &mut Stamps) -> Option<Chosen>
    requires some { 0 < words }
    requires few { words ≤ 8 }
    requires block { block < (P.value port.old).post.machine.frames / (64 * words) }
    requires may { MayWork (P.value port.old) }
    ensures looks { Looks (P.value port.old) (P.value port.new) }
    ensures found { IfSome result (λ c. IsFound (P.value port.old) (P.value port.new) (64 * words) stamps.new.items c) }
    ensures visits { Does (P.value port.old) (P.value port.new) (λ vs. RunBy words block (block_of result stamps.new.items) vs) }
{
    if !are_full(port, block * words, words) {
        return None;
    }
    try_block(port, block * (64 * words), 64 * words, stamps)
}

// A block of so many times 64 frames by the map.
fn by_runs<P: Port>(port: &mut P, words: u32, stamps: &mut Stamps) -> Option<Chosen>
    requires some { 0 < words }
    requires few { words ≤ 8 }
    requires may { MayWork (P.value port.old) }
    ensures looks { Looks (P.value port.old) (P.value port.new) }
    ensures found { IfSome result (λ c. IsFound (P.value port.old) (P.value port.new) (64 * words) stamps.new.items c) }
    ensures visits { Does (P.value port.old) (P.value port.new) (λ vs. FirstOf (RunBy words) ((P.value port.old).post.machine.frames / (64 * words)) (block_of result stamps.new.items) vs) }
{
    for block in 0..port.layout().frames / (64 * words) {
        let chosen = try_run(port, block, words, stamps);
        if chosen.is_some() {
            return chosen;
        }
    }
    None
}

// One pass over the reference words of all blocks.
fn by_frames<P: Port>(port: &mut P, size: u32, stamps: &mut Stamps) -> Option<Chosen>
    requires some { 0 < size }
    requires few { size ≤ 512 }
    requires may { MayWork (P.value port.old) }
    ensures looks { Looks (P.value port.old) (P.value port.new) }
    ensures found { IfSome result (λ c. IsFound (P.value port.old) (P.value port.new) size stamps.new.items c) }
    ensures none { IfNone result (NoneFree (P.value port.old) (P.value port.new) size) }
    ensures visits { Does (P.value port.old) (P.value port.new) (λ vs. ScannedBy (P.value port.old).post.machine size (block_of result stamps.new.items) vs) }
{
    for block in 0..port.layout().frames / size {
        let chosen = try_block(port, block * size, size, stamps);
        if chosen.is_some() {
            return chosen;
        }
    }
    None
}

// A block by the map.
fn by_bits<P: Port>(port: &mut P, size: u32, stamps: &mut Stamps) -> Option<Chosen>
    requires some { 0 < size }
    requires few { size ≤ 512 }
    requires whole { 64 < size → 64 * (size / 64) ≡ size }
    requires parts { size ≤ 64 → 64 % size ≡ 0 }
    requires may { MayWork (P.value port.old) }
    ensures looks { Looks (P.value port.old) (P.value port.new) }
    ensures found { IfSome result (λ c. IsFound (P.value port.old) (P.value port.new) size stamps.new.items c) }
    ensures visits { Does (P.value port.old) (P.value port.new) (λ vs. HintedBy (P.value port.old).post.machine size (block_of result stamps.new.items) vs) }
{
    if size <= 64 {
        by_words(port, size, stamps)
    } else {
        by_runs(port, size / 64, stamps)
    }
}

/// The first block of so many frames that is wholly free by the map and by its reference words; where there is none, by the reference words alone.
pub(crate) fn choose<P: Port>(port: &mut P, size: u32, stamps: &mut Stamps) -> Option<Chosen>
    requires some { 0 < size }
    requires few { size ≤ 512 }
    requires whole { 64 < size → 64 * (size / 64) ≡ size }
    requires parts { size ≤ 64 → 64 % size ≡ 0 }
    requires may { MayWork (P.value port.old) }
    ensures looks { Looks (P.value port.old) (P.value port.new) }
    ensures found { IfSome result (λ c. IsFound (P.value port.old) (P.value port.new) size stamps.new.items c) }
    ensures none { IfNone result (NoneFree (P.value port.old) (P.value port.new) size) }
    ensures visits { Does (P.value port.old) (P.value port.new) (λ vs. ChosenBy (P.value port.old).post.machine size (block_of result stamps.new.items) vs) }
{
    match by_bits(port, size, stamps) {
        Some(chosen) => Some(chosen),
        None => by_frames(port, size, stamps),
    }
}
