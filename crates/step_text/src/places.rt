ghost use Rattle.std.specs.Prelude.{◌≡◌, Some};
ghost use Rattle.xp_words.specs.Places.{frame_place, place_at, sizes_of};
ghost use Rattle.step_text.specs.Names.{place_text, word_text};

use std::fmt;
use xp_words::Layout;

/// A word of a vCPU, by its number.
#[derive(Clone, Copy)]
struct WordText(u32);

#[tactic(auto, unfolding(crate::specs::Names::word_text), using(std::proofs::lemmas::Bool::Decides::nat_tests))]
impl fmt::Display for WordText {
    ghost output = { λ s. Some (word_text s.0) };

    fn fmt<W: fmt::Write>(&self, f: &mut fmt::Formatter<W>) -> fmt::Result {
        let word = self.0;
        match word {
            0 => f.write_str("base"),
            1 => f.write_str("user-base"),
            2 => f.write_str("old0"),
            3 => f.write_str("old1"),
            4 => f.write_str("asked"),
            5 => f.write_str("flushed"),
            6 => f.write_str("run"),
            7 => f.write_str("ldt-base"),
            8..=21 => write!(f, "gdt {}", word - 8),
            _ => write!(f, "ldt {}", word - 22),
        }
    }
}

/// A word of a frame's own, by its number: references, kind, m2p, and its cells from 3 on.
#[derive(Clone, Copy)]
struct FrameWordText {
    frame: u32,
    word: u32,
}

#[tactic(auto, unfolding(crate::specs::Names::place_text), using(std::proofs::lemmas::Bool::Decides::nat_tests))]
impl fmt::Display for FrameWordText {
    ghost output = { λ s. Some (place_text (frame_place s.frame s.word)) };

    fn fmt<W: fmt::Write>(&self, f: &mut fmt::Formatter<W>) -> fmt::Result {
        let frame = self.frame;
        let word = self.word;
        match word {
            0 => write!(f, "refs {frame}"),
            1 => write!(f, "kind {frame}"),
            2 => write!(f, "m2p {frame}"),
            _ => write!(f, "cell {frame} {}", word - 3),
        }
    }
}

/// A word of the machine, by its place in the list of all words. Behind the last one the privileges go on.
#[derive(Clone, Copy)]
pub struct PlaceText<'a> {
    pub layout: &'a Layout,
    pub place: u32,
}

#[tactic(auto, unfolding(crate::specs::Names::place_text, xp_words::specs::Places::place_at), using(std::proofs::lemmas::Bool::Decides::nat_tests))]
impl<'a> fmt::Display for PlaceText<'a> {
    ghost output = { λ s. Some (place_text (place_at (sizes_of s.layout.now) s.place)) };

    fn fmt<W: fmt::Write>(&self, f: &mut fmt::Formatter<W>) -> fmt::Result {
        let layout = self.layout;
        let place = self.place;
        let first_vcpu = 1 + 2 * layout.domains();
        let first_frame = first_vcpu + 38 * layout.vcpus();
        let first_map = first_frame + 515 * layout.frames;
        let first_priv = first_map + layout.map_words();
        if place == 0 {
            f.write_str("clock")
        } else if place < first_vcpu {
            if place % 2 == 1 {
                write!(f, "pages {}", (place - 1) / 2)
            } else {
                write!(f, "life {}", (place - 2) / 2)
            }
        } else if place < first_frame {
            let word = place - first_vcpu;
            write!(f, "vcpu {} {}", word / 38, WordText(word % 38))
        } else if place < first_map {
            let word = place - first_frame;
            let named = FrameWordText {
                frame: word / 515,
                word: word % 515,
            };
            write!(f, "{named}")
        } else if place < first_priv {
            write!(f, "map {}", place - first_map)
        } else {
            write!(f, "priv {}", place - first_priv)
        }
    }
}
