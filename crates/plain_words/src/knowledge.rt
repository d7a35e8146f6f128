//! What a vCPU knows of a frame: by the references in its hand, or as that of the last recorded entry of a table in its works.
use crate::findings::Finding;
use crate::hand::{Hand, Live, Owner, Work};
use crate::machine::{Place, State};
use crate::readings::demand_at;
use xp_words::{Demand, KindWord, PageType};

/// Since that step the vCPU was found stopped, off, or flushed later than the stamp.
pub fn is_past(hand: &Hand, since: u64, stamp: u64, vcpu: u16) -> bool {
    let run = Place::Vcpu { vcpu, word: 6 };
    let flushed = Place::Vcpu { vcpu, word: 5 };
    let later = Finding::AtLeast {
        word: stamp.saturating_add(1),
    };
    hand.found_since(since, run, Finding::Idle) || hand.found_since(since, flushed, later)
}

/// The number of steps after which the vCPU had found each vCPU of the domain stopped, since it stored the
/// life word.
pub fn stopped_by(state: &State, hand: &Hand, own: u16, domain: u16) -> Option<u64> {
    let dying = Finding::Equal {
        word: u64::from(own) + 1,
    };
    let stored = hand.first_since(0, Place::Life { domain }, dying)?;
    let mut by = stored;
    for vcpu in 0..2_u16 {
        if state.domain_of(vcpu) == Some(domain) {
            let run = Place::Vcpu { vcpu, word: 6 };
            let found = hand.first_since(stored, run, Finding::Equal { word: 1 })?;
            by = by.max(found);
        }
    }
    Some(by)
}

impl Hand {
    fn tells_owner(&self, frame: u64, domain: u16, owner: Owner) -> bool {
        match owner {
            Owner::Of { domain: other } => other == domain,
            Owner::Since { steps } => {
                self.found_since(steps, Place::Refs { frame }, Finding::OwnedBy { domain })
            }
        }
    }

    /// Whether the vCPU knows by a reference in hand that the domain owns the frame.
    pub fn knows_owner(&self, frame: u64, domain: u16) -> bool {
        let mut known = false;
        for entry in &self.refs {
            if let Some(held) = entry {
                known = known || (held.frame == frame && self.tells_owner(frame, domain, held.is));
            }
        }
        for entry in &self.typed {
            if let Some(held) = entry {
                let named = held.frame == frame;
                known = known || (named && self.tells_owner(frame, domain, held.is.owner));
            }
        }
        for entry in &self.locks {
            if let Some(held) = entry {
                let named = held.frame == frame;
                known = known || (named && self.tells_owner(frame, domain, held.is.owner));
            }
        }
        known
    }

    fn tells_live(&self, frame: u64, kind: PageType, live: Live) -> bool {
        if live.found {
            live.kind == Some(kind)
        } else {
            self.found_since(live.since, Place::Kind { frame }, Finding::LiveAs { kind })
        }
    }

    /// Whether the vCPU knows by a typed reference or a lock that the frame is live with the type.
    pub fn knows_live(&self, frame: u64, kind: PageType) -> bool {
        let mut known = false;
        for entry in &self.typed {
            if let Some(held) = entry {
                known = known || (held.frame == frame && self.tells_live(frame, kind, held.is));
            }
        }
        for entry in &self.locks {
            if let Some(held) = entry {
                known = known || (held.frame == frame && held.is.kind == kind);
            }
        }
        known
    }

    fn tells_partial(&self, frame: u64, kind: PageType, live: Live) -> bool {
        let last = self.last_since(live.since, Place::Kind { frame });
        match last.and_then(KindWord::read) {
            Some(k) => !live.found && !k.validated && k.partial && k.kind == kind,
            None => false,
        }
    }

    /// Whether the vCPU last found or left the frame partial with the type since a typed reference came.
    pub fn knows_partial(&self, frame: u64, kind: PageType) -> bool {
        let mut known = false;
        for entry in &self.typed {
            if let Some(held) = entry {
                known = known || (held.frame == frame && self.tells_partial(frame, kind, held.is));
            }
        }
        known
    }

    /// Whether the frame of the last recorded entry of a table in work was found or made live since, or none is in question.
    pub fn is_settled(&self, work: &Work) -> bool {
        let Some(unsettled) = work.unsettled else {
            return true;
        };
        let (Some(kind), Some(word)) = (KindWord::read(work.word), unsettled.word) else {
            return false;
        };
        match demand_at(kind.kind, work.recorded.saturating_sub(1), word) {
            Demand::Typed { frame, .. } => {
                self.found_since(unsettled.since, Place::Kind { frame }, Finding::Live)
            }
            _ => true,
        }
    }
}
