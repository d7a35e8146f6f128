//! Whether a whole tree of page tables may be validated: its entries are followed from the top, level by level.
use plain_words::{FRAMES, State, demand_at, is_dead};
use xp_words::{Demand, KindWord, PageType, RefWord};

/// The type that is asked of each frame, and whether all that was asked so far may be had.
#[derive(Drop)]
struct Asked {
    types: [Option<PageType>; 5],
    lawful: bool,
}

impl Asked {
    /// That type is asked of the frame; of one frame all ask the same.
    fn ask(&mut self, frame: u64, kind: PageType) {
        let mut number: u64 = 0;
        let mut fits = false;
        for slot in &mut self.types {
            if number == frame {
                fits = slot.is_none() || *slot == Some(kind);
                *slot = Some(kind);
            }
            number = number.saturating_add(1);
        }
        self.lawful = self.lawful && fits;
    }

    fn of(&self, frame: u64) -> Option<PageType> {
        let mut number: u64 = 0;
        let mut of = None;
        for slot in &self.types {
            if number == frame {
                of = *slot;
            }
            number = number.saturating_add(1);
        }
        of
    }

    /// The type of a table whose entries are still to be validated.
    fn node(&self, state: &State, frame: u64) -> Option<PageType> {
        let kind = self.of(frame)?;
        let word = state.kind_of(frame)?;
        (kind.is_table() && is_dead(&word)).then_some(kind)
    }

    /// What the entries of such tables ask.
    fn follow(&mut self, state: &State, domain: u16) {
        for entry in &state.cells {
            if let Some(cell) = entry {
                if let Some(kind) = self.node(state, cell.frame) {
                    match demand_at(kind, cell.index, cell.word) {
                        Demand::Typed { frame, kind } => self.ask(frame, kind),
                        Demand::Read { frame } => {
                            self.lawful = self.lawful && is_owned(state, domain, frame);
                        }
                        Demand::Bad => self.lawful = false,
                        _ => {}
                    }
                }
            }
        }
    }

    /// How often the entries of such tables name a frame.
    fn names(&self, state: &State, named: u64) -> u64 {
        let mut names: u64 = 0;
        for entry in &state.cells {
            if let Some(cell) = entry {
                if let Some(kind) = self.node(state, cell.frame) {
                    let here = match demand_at(kind, cell.index, cell.word) {
                        Demand::Typed { frame, .. } | Demand::Read { frame } => frame == named,
                        _ => false,
                    };
                    names = names.saturating_add(u64::from(here));
                }
            }
        }
        names
    }
}

fn count_at(state: &State, frame: u64) -> u64 {
    match state.refs_of(frame) {
        Some(RefWord::Owned { count, .. }) => u64::from(count),
        _ => 0,
    }
}

fn is_owned(state: &State, domain: u16, frame: u64) -> bool {
    state.owner_at(frame) == Some(domain) && 0 < count_at(state, frame)
}

/// Live with that type, and with a type count.
fn is_counted_as(word: &KindWord, kind: PageType) -> bool {
    word.validated && word.kind == kind && 0 < word.number
}

/// Each frame of the tree is the domain's, and dead, or live with a type count and of the type that is asked.
fn frames_fit(state: &State, domain: u16, asked: &Asked) -> bool {
    let mut fit = true;
    for frame in 0..FRAMES {
        if let Some(kind) = asked.of(frame) {
            let typed = match state.kind_of(frame) {
                Some(word) => is_dead(&word) || is_counted_as(&word, kind),
                None => false,
            };
            fit = fit && typed && is_owned(state, domain, frame);
        }
    }
    fit
}

/// The references of each owned frame, with those that validation takes.
fn counts_fit(state: &State, top: u64, asked: &Asked) -> bool {
    let mut fit = true;
    for frame in 0..FRAMES {
        let count = count_at(state, frame)
            .saturating_add(u64::from(frame == top))
            .saturating_add(asked.names(state, frame));
        fit = fit && (state.owner_at(frame).is_none() || count <= u64::from(state.limit));
    }
    fit
}

/// Whether the top frame and all that it leads to may be validated for that domain, the top as a table of that type.
pub fn is_lawful(state: &State, domain: u16, top: u64, kind: PageType) -> bool {
    let mut asked = Asked {
        types: [None; 5],
        lawful: true,
    };
    asked.ask(top, kind);
    // Types fall from level to level, so this reaches all of them.
    for _ in 0..4_u32 {
        asked.follow(state, domain);
    }
    asked.lawful && frames_fit(state, domain, &asked) && counts_fit(state, top, &asked)
}
