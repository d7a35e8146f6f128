//! The map of free frames.
#![tactic(auto, using(crate::proofs::Steps::inside))]

ghost use Rattle.std.specs.Prelude.{◌≡◌, ◌<◌, ◌+◌, ◌*◌, ℕ, length};
ghost use Rattle.xp_words.specs.declared.place.Place.{Place};
ghost use Rattle.xp_words.specs.Places.{sizes_of, size, memory, map_words};
ghost use Rattle.machine_build.specs.Opening.{bits_below};
ghost use Rattle.machine_build.specs.Puts.{is_zero, with_map};

use sparse_words::SparseWords;
use xp_words::Layout;

fn is_free(layout: &Layout, frame: u32, words: &SparseWords) -> bool
    requires { length words.now ≡ size (sizes_of layout.now) }
    ensures { result ≡ is_zero layout.now.frames (memory (sizes_of layout.now) words.now) frame }
{
    frame < layout.frames && words.get(layout.refs_place(frame)) == 0
}

/// Word `number` of the map: bit b is set where frame 64 * number + b is free.
fn free_bits(layout: &Layout, number: u32, words: &SparseWords) -> u64
    requires number { number < map_words (sizes_of layout.now) }
    requires count { length words.now ≡ size (sizes_of layout.now) }
    ensures { result ≡ bits_below 64 (λ b. is_zero layout.now.frames (memory (sizes_of layout.now) words.now) (64 * number + b)) }
{
    // So the prover knows that there are few frames, and that their numbers fit.
    let _domains = layout.domains();
    let mut bits = 0;
    for bit in 0..64 {
        if is_free(layout, 64 * number + bit, words) {
            bits += 1 << bit;
        }
    }
    bits
}

/// The reference words stand already.
pub fn put_map(layout: &Layout, words: &mut SparseWords)
    requires count { length words.old ≡ size (sizes_of layout.now) }
    ensures count { length words.new ≡ length words.old }
    ensures words { (p : Place) → memory (sizes_of layout.now) words.new p ≡ with_map (map_words (sizes_of layout.now)) layout.now.frames (memory (sizes_of layout.now) words.old) p }
{
    for number in 0..layout.map_words() {
        let bits = free_bits(layout, number, words);
        words.set(layout.map_place(number), bits);
    }
}
