ghost use Rattle.std.specs.Prelude.{◌≡◌, Some};
ghost use Rattle.report_text.specs.WordTexts.{context_text, ref_text, type_text, printed_type_count, letter, flags_text, kind_text, life_text, m2p_text};

use std::fmt;
use xp_words::{ContextWord, KindWord, PageType, RefWord};

/// A context word: the number of its frame, `-` for none.
#[derive(Clone, Copy)]
pub struct ContextText(pub u64);

#[tactic(auto, unfolding(crate::specs::WordTexts::context_text))]
impl fmt::Display for ContextText {
    ghost output = { λ s. Some (context_text s.0) };

    fn fmt<W: fmt::Write>(&self, f: &mut fmt::Formatter<W>) -> fmt::Result {
        let word = self.0;
        match ContextWord::read(word) {
            Some(ContextWord { frame: Some(frame) }) => write!(f, "{frame}"),
            Some(ContextWord { frame: None }) => f.write_str("-"),
            None => write!(f, "0x{word:x}"),
        }
    }
}

/// A reference word as log lines print it.
#[derive(Clone, Copy)]
pub struct RefText(pub u64);

#[tactic(auto, unfolding(crate::specs::WordTexts::ref_text))]
impl fmt::Display for RefText {
    ghost output = { λ s. Some (ref_text s.0) };

    fn fmt<W: fmt::Write>(&self, f: &mut fmt::Formatter<W>) -> fmt::Result {
        let word = self.0;
        match RefWord::read(word) {
            Some(RefWord::Free { .. }) => f.write_str("free"),
            Some(
                RefWord::Owned {
                    owner,
                    allocated: true,
                    count,
                },
            ) => write!(f, "d{owner},{count},a"),
            Some(
                RefWord::Owned {
                    owner,
                    allocated: false,
                    count,
                },
            ) => write!(f, "d{owner},{count}"),
            Some(RefWord::Dying { owner }) => write!(f, "d{owner},0"),
            None => write!(f, "0x{word:x}"),
        }
    }
}

/// The name of a type.
#[derive(Clone, Copy)]
pub struct TypeText(pub PageType);

#[tactic(auto, unfolding(crate::specs::WordTexts::type_text))]
impl fmt::Display for TypeText {
    ghost output = { λ s. Some (type_text s.0) };

    fn fmt<W: fmt::Write>(&self, f: &mut fmt::Formatter<W>) -> fmt::Result {
        f.write_str(match self.0 {
            PageType::None => "none",
            PageType::L1 => "L1",
            PageType::L2 => "L2",
            PageType::L3 => "L3",
            PageType::L4 => "L4",
            PageType::Desc => "desc",
            PageType::Writable => "wr",
        })
    }
}

/// How many typed references there are to the frame.
pub fn type_count(kind: &KindWord) -> u64
    ensures { result ≡ printed_type_count kind.now }
{
    if kind.validated {
        kind.number
    } else if kind.locked || kind.partial {
        1
    } else {
        0
    }
}

fn letter(set: bool, text: &'static str) -> &'static str
    ensures { result.now ≡ letter set text.now }
{
    if set { text } else { "" }
}

/// The letters of the marks that are set, `-` where there is none.
#[derive(Clone, Copy)]
pub struct FlagsText(pub KindWord);

#[tactic(auto, unfolding(crate::specs::WordTexts::flags_text))]
impl fmt::Display for FlagsText {
    ghost output = { λ s. Some (flags_text s.0) };

    fn fmt<W: fmt::Write>(&self, f: &mut fmt::Formatter<W>) -> fmt::Result {
        let kind = &self.0;
        if !(kind.pinned
            || kind.validated
            || kind.partial
            || kind.locked
            || kind.kept
            || kind.unflushed)
        {
            return f.write_str("-");
        }
        let pinned = letter(kind.pinned, "p");
        let validated = letter(kind.validated, "v");
        let partial = letter(kind.partial, "h");
        let locked = letter(kind.locked, "l");
        let kept = letter(kind.kept, "k");
        let unflushed = letter(kind.unflushed, "u");
        write!(f, "{pinned}{validated}{partial}{locked}{kept}{unflushed}")
    }
}

/// A kind word as log lines print it.
#[derive(Clone, Copy)]
pub struct KindText(pub u64);

#[tactic(auto, unfolding(crate::specs::WordTexts::kind_text))]
impl fmt::Display for KindText {
    ghost output = { λ s. Some (kind_text s.0) };

    fn fmt<W: fmt::Write>(&self, f: &mut fmt::Formatter<W>) -> fmt::Result {
        let word = self.0;
        match KindWord::read(word) {
            Some(kind) => write!(
                f,
                "{},{},{}",
                TypeText(kind.kind),
                type_count(&kind),
                FlagsText(kind)
            ),
            None => write!(f, "0x{word:x}"),
        }
    }
}

/// The life word of a domain.
#[derive(Clone, Copy)]
pub struct LifeText(pub u64);

#[tactic(auto, unfolding(crate::specs::WordTexts::life_text))]
impl fmt::Display for LifeText {
    ghost output = { λ s. Some (life_text s.0) };

    fn fmt<W: fmt::Write>(&self, f: &mut fmt::Formatter<W>) -> fmt::Result {
        match self.0 {
            0 => f.write_str("live"),
            255 => f.write_str("dead"),
            _ => f.write_str("dying"),
        }
    }
}

/// A machine-to-physical word, `-` for none.
#[derive(Clone, Copy)]
pub struct M2pText(pub u64);

#[tactic(auto, unfolding(crate::specs::WordTexts::m2p_text))]
impl fmt::Display for M2pText {
    ghost output = { λ s. Some (m2p_text s.0) };

    fn fmt<W: fmt::Write>(&self, f: &mut fmt::Formatter<W>) -> fmt::Result {
        let word = self.0;
        if word == u64::MAX {
            f.write_str("-")
        } else {
            write!(f, "0x{word:x}")
        }
    }
}
