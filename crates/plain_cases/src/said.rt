//! What a piece of a line says, word by word.
use plain_words::Place;
use xp_words::PageType;

/// The numbers that have names: marks and owners of reference words, and parts of kind words. `ONE` and `TWO` are
/// domain 0's reference words, allocated, with one reference and with two; `UNLOCK` takes a lock and one count off.
static NUMBERS: [(&str, u64); 21] = [
    ("OWNED", 1 << 63),
    ("OTHER", (1 << 63) + (1 << 32)),
    ("ALLOCATED", 1 << 31),
    ("ONE", (1 << 63) + (1 << 31) + 1),
    ("TWO", (1 << 63) + (1 << 31) + 2),
    ("PROGRESS", 1 << 36),
    ("UNFLUSHED", 1 << 46),
    ("KEPT", 1 << 47),
    ("LOCKED", 1 << 48),
    ("PARTIAL", 1 << 49),
    ("LIVE", 1 << 50),
    ("PINNED", 1 << 51),
    ("L1", 1 << 52),
    ("L2", 2 << 52),
    ("L3", 3 << 52),
    ("L4", 4 << 52),
    ("DESC", 5 << 52),
    ("WRITABLE", 7 << 52),
    ("UNLOCK", u64::MAX - (1 << 48)),
    ("false", 0),
    ("true", 1),
];

/// The names of types.
static TYPES: [(&str, PageType); 7] = [
    ("none", PageType::None),
    ("l1", PageType::L1),
    ("l2", PageType::L2),
    ("l3", PageType::L3),
    ("l4", PageType::L4),
    ("desc", PageType::Desc),
    ("writable", PageType::Writable),
];

/// A name, and what stands with it. What is not said is empty, no place, no type and 0.
#[derive(Clone, Copy)]
pub struct Said<'a> {
    pub name: &'a str,
    /// The word behind the name that is none of the others.
    pub then: &'a str,
    pub place: Option<Place>,
    pub kind: PageType,
    pub numbers: [u64; 4],
}

/// None where a word is one too many.
pub fn read(text: &str) -> Option<Said<'_>> {
    let mut said = Said {
        name: "",
        then: "",
        place: None,
        kind: PageType::None,
        numbers: [0; 4],
    };
    let mut count: usize = 0;
    for word in text.split_whitespace() {
        if let Some(number) = number(word) {
            *said.numbers.get_mut(count)? = number;
            count = count.saturating_add(1);
        } else if let Some(kind) = page_type(word) {
            said.kind = kind;
        } else if let Some(place) = place(word) {
            said.place = Some(place);
        } else if said.name.is_empty() {
            said.name = word;
        } else if said.then.is_empty() {
            said.then = word;
        } else {
            return None;
        }
    }
    Some(said)
}

fn page_type(word: &str) -> Option<PageType> {
    for (name, kind) in &TYPES {
        if *name == word {
            return Some(*kind);
        }
    }
    None
}

/// A name and its numbers, as `cell:0:5`.
fn place(word: &str) -> Option<Place> {
    if word == "clock" {
        return Some(Place::Clock);
    }
    let (name, at) = word.split_once(':')?;
    let (frame, index) = match at.split_once(':') {
        Some((first, second)) => (number(first)?, number(second)?),
        None => (number(at)?, 0),
    };
    let domain = u16::try_from(frame).ok()?;
    match name {
        "refs" => Some(Place::Refs { frame }),
        "kind" => Some(Place::Kind { frame }),
        "m2p" => Some(Place::M2p { frame }),
        "cell" => Some(Place::Cell { frame, index }),
        "map" => Some(Place::Map { word: frame }),
        "pages" => Some(Place::Pages { domain }),
        "life" => Some(Place::Life { domain }),
        "priv" => Some(Place::Priv { domain }),
        "vcpu" => Some(Place::Vcpu {
            vcpu: domain,
            word: index,
        }),
        _ => None,
    }
}

/// A sum, or with `-` in front of it what makes 0 with it.
fn number(word: &str) -> Option<u64> {
    let (terms, less) = match word.strip_prefix('-') {
        Some(terms) => (terms, true),
        None => (word, false),
    };
    let mut sum: u64 = 0;
    for term in terms.split('+') {
        let value = match term.split_once('*') {
            Some((times, of)) => factor(times)?.wrapping_mul(factor(of)?),
            None => factor(term)?,
        };
        sum = sum.wrapping_add(value);
    }
    Some(if less { sum.wrapping_neg() } else { sum })
}

fn factor(word: &str) -> Option<u64> {
    for (name, value) in &NUMBERS {
        if *name == word {
            return Some(*value);
        }
    }
    match word.strip_prefix("0x") {
        Some(digits) => u64::from_str_radix(digits, 16).ok(),
        None => word.parse().ok(),
    }
}
