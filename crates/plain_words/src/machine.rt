//! A small machine, as plain values.
use crate::hand::Hand;
use crate::lists::{append, newest};
use crate::readings::demand_at;
use xp_words::{Demand, KindWord, RefWord};

/// How many frames there are.
pub const FRAMES: u64 = 5;

/// A word of the machine, by name.
#[derive(Clone, Copy, PartialEq)]
pub enum Place {
    Clock,
    Pages { domain: u16 },
    Life { domain: u16 },
    Priv { domain: u16 },
    Vcpu { vcpu: u16, word: u64 },
    Refs { frame: u64 },
    Kind { frame: u64 },
    M2p { frame: u64 },
    Cell { frame: u64, index: u64 },
    Map { word: u64 },
}

/// The two words of a frame.
#[derive(Clone, Copy)]
pub struct Frame {
    pub refs: u64,
    pub kind: u64,
}

/// A cell that is not 0. Each cell is named once.
#[derive(Clone, Copy)]
pub struct CellWord {
    pub frame: u64,
    pub index: u64,
    pub word: u64,
}

/// Two domains, two vCPUs, five frames; the cells that are not listed are 0. The words that tell a frame's
/// number to the guest are not kept.
#[derive(Clone, Copy)]
pub struct State {
    pub limit: u32,
    pub page_limit: [u64; 2],
    pub vcpu_domain: [u16; 2],
    pub clock: u64,
    pub pages: [u64; 2],
    pub lives: [u64; 2],
    pub privileges: [u64; 2],
    pub vcpus: [[u64; 38]; 2],
    pub frames: [Frame; 5],
    pub map: u64,
    pub cells: [Option<CellWord>; 8],
    pub hands: [Hand; 2],
}

fn put_cell(state: &mut State, new: CellWord) {
    for slot in &mut state.cells {
        if matches!(slot, Some(cell) if cell.frame == new.frame && cell.index == new.index) {
            *slot = None;
        }
    }
    if new.word != 0 {
        append(&mut state.cells, new);
    }
}

impl State {
    /// None where there is no such vCPU.
    pub fn domain_of(&self, vcpu: u16) -> Option<u16> {
        self.vcpu_domain.get(usize::from(vcpu)).copied()
    }

    /// A word that is no spelling reads as None.
    pub fn kind_of(&self, frame: u64) -> Option<KindWord> {
        let words = self.frames.get(frame as usize)?;
        KindWord::read(words.kind)
    }

    /// None for a word that is no spelling, too.
    pub fn refs_of(&self, frame: u64) -> Option<RefWord> {
        let words = self.frames.get(frame as usize)?;
        RefWord::read(words.refs)
    }

    /// The domain that owns the frame.
    pub fn owner_at(&self, frame: u64) -> Option<u16> {
        let words = self.frames.get(frame as usize)?;
        crate::readings::owner_of(words.refs)
    }

    /// The word of a cell; 0 for one that is not listed.
    pub fn cell(&self, frame: u64, index: u64) -> u64 {
        let mut word = 0;
        for entry in &self.cells {
            if let Some(cell) = entry {
                if cell.frame == frame && cell.index == index {
                    word = cell.word;
                }
            }
        }
        word
    }

    /// The word at a place; 0 where there is none, and for those that are not kept.
    pub fn word(&self, place: Place) -> u64 {
        let word = match place {
            Place::Clock => Some(self.clock),
            Place::Pages { domain } => self.pages.get(usize::from(domain)).copied(),
            Place::Life { domain } => self.lives.get(usize::from(domain)).copied(),
            Place::Priv { domain } => self.privileges.get(usize::from(domain)).copied(),
            Place::Vcpu { vcpu, word } => match self.vcpus.get(usize::from(vcpu)) {
                Some(words) => words.get(word as usize).copied(),
                None => None,
            },
            Place::Refs { frame } => self.frames.get(frame as usize).map(|words| words.refs),
            Place::Kind { frame } => self.frames.get(frame as usize).map(|words| words.kind),
            Place::M2p { .. } => None,
            Place::Cell { frame, index } => Some(self.cell(frame, index)),
            Place::Map { word } => (word == 0).then_some(self.map),
        };
        word.unwrap_or(0)
    }

    fn put_domain_word(&mut self, place: Place, new: u64) {
        match place {
            Place::Pages { domain } => {
                if let Some(word) = self.pages.get_mut(usize::from(domain)) {
                    *word = new;
                }
            }
            Place::Life { domain } => {
                if let Some(word) = self.lives.get_mut(usize::from(domain)) {
                    *word = new;
                }
            }
            Place::Priv { domain } => {
                if let Some(word) = self.privileges.get_mut(usize::from(domain)) {
                    *word = new;
                }
            }
            _ => {}
        }
    }

    /// Changes the word at a place, where it is kept.
    pub fn put_word(&mut self, place: Place, new: u64) {
        match place {
            Place::Clock => self.clock = new,
            Place::Map { word: 0 } => self.map = new,
            Place::Refs { frame } => {
                if let Some(words) = self.frames.get_mut(frame as usize) {
                    words.refs = new;
                }
            }
            Place::Kind { frame } => {
                if let Some(words) = self.frames.get_mut(frame as usize) {
                    words.kind = new;
                }
            }
            Place::Cell { frame, index } => {
                let cell = CellWord {
                    frame,
                    index,
                    word: new,
                };
                put_cell(self, cell);
            }
            Place::Vcpu { vcpu, word } => {
                if let Some(words) = self.vcpus.get_mut(usize::from(vcpu)) {
                    if let Some(slot) = words.get_mut(word as usize) {
                        *slot = new;
                    }
                }
            }
            _ => self.put_domain_word(place, new),
        }
    }

    /// The number of recorded entries that the vCPU which works on the frame says.
    fn recorded_in_work(&self, frame: u64) -> Option<u64> {
        let mut recorded = None;
        for hand in &self.hands {
            if let Some(work) = newest(&hand.works, frame) {
                recorded = Some(work.recorded);
            }
        }
        recorded
    }

    /// How many of the first entries of a frame are recorded.
    pub fn held(&self, frame: u64) -> u64 {
        let Some(kind) = self.kind_of(frame) else {
            return 0;
        };
        if !kind.kind.is_table() {
            return 0;
        }
        match self.recorded_in_work(frame) {
            Some(recorded) => recorded,
            None if kind.validated => 512,
            None if kind.partial => u64::from(kind.progress),
            None => 0,
        }
    }

    /// What a cell asks, where it is recorded.
    pub fn recorded_demand(&self, cell: CellWord) -> Demand {
        match self.kind_of(cell.frame) {
            Some(kind) if cell.index < self.held(cell.frame) => {
                demand_at(kind.kind, cell.index, cell.word)
            }
            _ => Demand::Nothing,
        }
    }
}
