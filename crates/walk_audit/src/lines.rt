ghost use Rattle.walk_audit.specs.Lines.{verdict_text};
ghost use Rattle.std.specs.Prelude.{Some};

use crate::verdict::Verdict;
use std::fmt;

// In one line, without a line feed.
impl fmt::Display for Verdict {
    ghost output = { λ v. Some (verdict_text v) };

    fn fmt<W: fmt::Write>(&self, f: &mut fmt::Formatter<W>) -> fmt::Result {
        match *self {
            Verdict::Sound => write!(f, "sound"),
            Verdict::Word { place, found } => write!(f, "word {place} found 0x{found:x}"),
            Verdict::Held { frame } => write!(f, "frame {frame} held"),
            Verdict::Refs { frame, want, found } => {
                write!(f, "frame {frame} refs want {want} found {found}")
            }
            Verdict::Count { frame, want, found } => {
                write!(f, "frame {frame} count want {want} found {found}")
            }
            Verdict::OtherKind { frame } => write!(f, "frame {frame} type"),
            Verdict::Pages {
                domain,
                want,
                found,
            } => { write!(f, "domain {domain} pages want {want} found {found}") }
            Verdict::BadEntry { frame, index } => write!(f, "entry {frame} {index}"),
            Verdict::Context { vcpu, word } => write!(f, "context {vcpu} {word}"),
            Verdict::Stamp { place } => write!(f, "stamp {place}"),
            Verdict::Dead { domain } => write!(f, "dead {domain}"),
            Verdict::Map { word } => write!(f, "map {word}"),
        }
    }
}
