//! What a vCPU has found and left.
use crate::hand::{Hand, Made};
use crate::machine::Place;
use crate::readings::{bit_of, free_stamp, kind_stamp, owner_of};
use xp_words::{KindWord, PageType, RefWord};

/// What a vCPU may have found in a word.
#[derive(Clone, Copy)]
pub enum Finding {
    Equal { word: u64 },
    Other { word: u64 },
    AtLeast { word: u64 },
    AtMost { word: u64 },
    /// 0 or that word.
    NoneOr { word: u64 },
    /// A run word: stopped or off its processor.
    Idle,
    OwnedBy { domain: u16 },
    NotOwnedBy { domain: u16 },
    Unallocated,
    Live,
    LiveAs { kind: PageType },
    Unpinned,
    Unkept,
    HasNow { domain: u16 },
    HasEver { domain: u16 },
    NeverHad { domain: u16 },
    /// What the word tells, now or ever, is in the other as ever had.
    GivenIn { word: u64 },
}

impl Finding {
    /// Whether the word is so.
    pub fn holds(self, word: u64) -> bool {
        match self {
            Finding::Equal { word: other } => word == other,
            Finding::Other { word: other } => word != other,
            Finding::AtLeast { word: other } => word >= other,
            Finding::AtMost { word: other } => word <= other,
            Finding::NoneOr { word: other } => word == 0 || word == other,
            Finding::Idle => word == 1 || word == 2,
            Finding::OwnedBy { domain } => owner_of(word) == Some(domain),
            Finding::NotOwnedBy { domain } => owner_of(word) != Some(domain),
            Finding::HasNow { domain } => bit_of(word, u64::from(domain)),
            Finding::HasEver { domain } => bit_of(word, u64::from(domain) + 16),
            Finding::NeverHad { domain } => !bit_of(word, u64::from(domain) + 16),
            Finding::GivenIn { word: other } => {
                ((word | (word >> 16)) & 0xffff) & !(other >> 16) == 0
            }
            _ => self.holds_of_frame(word),
        }
    }

    fn holds_of_frame(self, word: u64) -> bool {
        match (self, KindWord::read(word)) {
            (Finding::Unallocated, _) => !matches!(
                RefWord::read(word),
                Some(RefWord::Owned {
                    allocated: true,
                    ..
                })
            ),
            (Finding::Live, Some(k)) => k.validated,
            (Finding::LiveAs { kind }, Some(k)) => k.validated && k.kind == kind,
            (Finding::Unpinned, Some(k)) => !k.pinned,
            (Finding::Unkept, Some(k)) => !k.kept,
            _ => false,
        }
    }
}

/// The clock value or stamp that a word tells; 0 where it tells none.
fn told(place: Place, word: u64) -> u64 {
    match place {
        Place::Clock | Place::Vcpu { word: 5, .. } => word,
        Place::Refs { .. } => free_stamp(word),
        Place::Kind { .. } => kind_stamp(word),
        _ => 0,
    }
}

impl Made {
    /// The latest clock value or stamp that it found or left.
    pub fn told(&self) -> u64 {
        told(self.place, self.found).max(told(self.place, self.left))
    }
}

impl Hand {
    /// How many steps there were after the first one from that number on that found or left such a word.
    pub fn first_since(&self, since: u64, place: Place, finding: Finding) -> Option<u64> {
        let mut number: u64 = 0;
        let mut first = None;
        for entry in &self.steps {
            number = number.saturating_add(1);
            if let (Some(made), None) = (entry, first) {
                if since < number && made.place == place && finding.holds(made.left) {
                    first = Some(number);
                }
            }
        }
        first
    }

    /// Whether a step from that number on, and below the other, found or left such a word.
    pub fn found_between(&self, since: u64, before: u64, place: Place, finding: Finding) -> bool {
        match self.first_since(since, place, finding) {
            Some(after) => after <= before,
            None => false,
        }
    }

    /// Whether a step from that number on found or left such a word.
    pub fn found_since(&self, since: u64, place: Place, finding: Finding) -> bool {
        self.first_since(since, place, finding).is_some()
    }

    /// Whether each word that the steps from that number on found or left there is so.
    pub fn each_since(&self, since: u64, place: Place, finding: Finding) -> bool {
        let mut number: u64 = 0;
        let mut each = true;
        for entry in &self.steps {
            number = number.saturating_add(1);
            if let Some(made) = entry {
                let counts = since < number && made.place == place;
                each = each && (!counts || (finding.holds(made.found) && finding.holds(made.left)));
            }
        }
        each
    }

    /// The word that the steps from that number on found or left there last.
    pub fn last_since(&self, since: u64, place: Place) -> Option<u64> {
        let mut number: u64 = 0;
        let mut last = None;
        for entry in &self.steps {
            number = number.saturating_add(1);
            if let Some(made) = entry {
                if since < number && made.place == place {
                    last = Some(made.left);
                }
            }
        }
        last
    }

    /// The number of the last step that found or left such a word.
    pub fn last_with(&self, place: Place, finding: Finding) -> Option<u64> {
        let mut number: u64 = 0;
        let mut last = None;
        for entry in &self.steps {
            if matches!(entry, Some(made) if made.place == place && finding.holds(made.left)) {
                last = Some(number);
            }
            number = number.saturating_add(1);
        }
        last
    }

    /// The latest clock value or stamp that the steps below that number found or left.
    pub fn told_before(&self, before: u64) -> u64 {
        let mut number: u64 = 0;
        let mut latest = 0;
        for entry in &self.steps {
            if let Some(made) = entry {
                if number < before {
                    latest = latest.max(made.told());
                }
            }
            number = number.saturating_add(1);
        }
        latest
    }
}
