//! The rule of each kind of step.
use crate::{cells, contexts, flushes, kinds, lives, marks, references, walks};
use plain_moves::{Step, marked};
use plain_words::{Hand, Place, State, is_place, is_spelling, times};
use xp_board::{Act, StepKind};

/// Whether a step of a vCPU is legal. The mark is judged first, and the act by the hand that the mark leaves.
pub fn judge(state: &State, own: u16, step: &Step) -> bool {
    let (Some(hand), Some(domain)) = (state.hands.get(usize::from(own)), state.domain_of(own))
    else {
        return false;
    };
    let after = marked(hand, step.mark);
    is_place(step.place)
        && marks::allows(hand, step.kind, step.mark)
        && (hand.run == Some(0) || !needs_running(step.kind))
        && writes_spelling(state, step)
        && allows(state, &after, own, domain, step)
}

fn needs_running(kind: StepKind) -> bool {
    !matches!(
        kind,
        StepKind::Look | StepKind::Tick | StepKind::Ack | StepKind::Run
    )
}

fn writes_spelling(state: &State, step: &Step) -> bool {
    match step.act {
        Act::Cas { new, .. } | Act::Store { new } => is_spelling(state, step.place, new),
        _ => true,
    }
}

fn allows(state: &State, hand: &Hand, own: u16, domain: u16, step: &Step) -> bool {
    let (kind, act) = (step.kind, step.act);
    if kind == StepKind::Look {
        return act == Act::Load;
    }
    match step.place {
        Place::Clock => kind == StepKind::Tick && flushes::ticks(act),
        Place::Pages { domain: of } => kind == StepKind::Pages && allows_pages(hand, of, act),
        Place::Life { domain: of } => {
            kind == StepKind::Life && lives::allows(state, hand, own, of, act)
        }
        Place::Priv { .. } => kind == StepKind::Priv && lives::sets_privilege(hand, domain, act),
        Place::Vcpu { vcpu, word } => allows_of_vcpu(state, hand, own, step, vcpu, word),
        Place::Refs { frame } => {
            kind == StepKind::Ref && references::allows(state, hand, domain, frame, act)
        }
        Place::Kind { frame } => {
            kind == StepKind::Kind && kinds::allows(state, hand, domain, frame, act)
        }
        Place::M2p { frame } => kind == StepKind::M2p && allows_map(hand, frame, act),
        Place::Cell { frame, index } => allows_of_cell(hand, step, frame, index),
        Place::Map { word } => kind == StepKind::Hint && references::hints(hand, word, act),
    }
}

fn allows_of_vcpu(state: &State, hand: &Hand, own: u16, step: &Step, vcpu: u16, word: u64) -> bool {
    let owns = vcpu == own;
    match step.kind {
        StepKind::Context => contexts::allows(state, hand, own, vcpu, word, step.act),
        StepKind::Fill => owns && walks::starts(hand, word, step.act, step.mark),
        StepKind::Ask => word == 4 && flushes::asks(state, hand, vcpu, step.act),
        StepKind::Ack => owns && word == 5 && flushes::acknowledges(hand, step.act),
        StepKind::Run => owns && word == 6 && lives::runs(hand, step.act),
        _ => false,
    }
}

fn allows_of_cell(hand: &Hand, step: &Step, frame: u64, index: u64) -> bool {
    match step.kind {
        StepKind::Cell => cells::allows(hand, frame, index, step.act),
        StepKind::Fill => walks::goes_on(hand, frame, index, step.act, step.mark),
        StepKind::Touch => walks::touches(hand, frame, index, step.act),
        StepKind::Guest => walks::accesses(hand, frame, step.act),
        _ => false,
    }
}

/// A machine-to-physical word is stored by who has a reference, or took the frame from the free ones.
fn allows_map(hand: &Hand, frame: u64, act: Act) -> bool {
    let in_hand = 0 < hand.all(frame) || 0 < times(&hand.claimed, frame);
    matches!(act, Act::Store { .. }) && in_hand
}

/// Upwards it gives credits, and no more go down than are in hand.
fn allows_pages(hand: &Hand, domain: u16, act: Act) -> bool {
    match act {
        Act::Cas { expected, new } => expected < new,
        Act::Add { by } => 0 < by && by.wrapping_neg() <= hand.credits_of(domain),
        _ => false,
    }
}
