//! A step, and the machine after it.
use crate::{cells, kinds, learned, marks, references, walks};
use plain_words::{Hand, Made, Place, State, append, left_by};
use xp_board::{Act, Mark, StepKind};

/// One atomic step.
#[derive(Clone, Copy)]
pub struct Step {
    pub place: Place,
    pub act: Act,
    pub kind: StepKind,
    pub mark: Option<Mark>,
}

/// The machine after a step of the vCPU, legal or not.
pub fn moved(state: &State, own: u16, step: &Step) -> State {
    let mut next = *state;
    let Some(domain) = state.domain_of(own) else {
        return next;
    };
    let found = state.word(step.place);
    let left = left_by(step.act, found);
    next.put_word(step.place, left);
    if let Some(hand) = next.hands.get_mut(usize::from(own)) {
        let mut after = marks::marked(hand, step.mark);
        acts(&mut after, domain, step, found);
        learned::learns(&mut after, own, step.place, found, left);
        let made = Made {
            place: step.place,
            found,
            left,
        };
        append(&mut after.steps, made);
        *hand = after;
    }
    next
}

/// What the act moves, by kind.
fn acts(hand: &mut Hand, domain: u16, step: &Step, found: u64) {
    match (step.kind, step.place) {
        (StepKind::Ref, Place::Refs { frame }) => {
            references::moves(hand, domain, frame, step.act, found);
        }
        (StepKind::Kind, Place::Kind { frame }) => {
            kinds::moves(hand, domain, frame, step.act, found);
        }
        (StepKind::Cell, Place::Cell { frame, index }) => {
            cells::moves(hand, frame, index, step.act, found);
        }
        (StepKind::Pages, Place::Pages { domain }) => {
            cells::moves_credits(hand, domain, step.act, found);
        }
        (StepKind::Context, Place::Vcpu { word, .. }) => {
            cells::moves_named(hand, word, step.act, found);
        }
        (StepKind::Fill, Place::Vcpu { word, .. }) => {
            walks::starts(hand, word, step.mark, found);
        }
        (StepKind::Fill, Place::Cell { frame, index }) => walks::loads(hand, frame, index, found),
        (StepKind::Touch, Place::Cell { .. }) => walks::touches(hand, step.act, found),
        (StepKind::Hint, Place::Map { word }) => references::hints(hand, word, step.act),
        (StepKind::Run, _) => runs(hand, step.act),
        (StepKind::Ack, _) => flushes(hand),
        _ => {}
    }
}

/// The vCPU comes to its processor and is cold; or it leaves it, or stops, without translations.
fn runs(hand: &mut Hand, act: Act) {
    if let Act::Store { new } = act {
        if new == 0 {
            hand.cold = true;
        } else {
            hand.cache = [None; 65];
        }
        hand.ran = hand.time().saturating_add(1);
    }
}

fn flushes(hand: &mut Hand) {
    hand.cache = [None; 65];
    hand.cold = false;
    hand.acked = hand.time().saturating_add(1);
}
