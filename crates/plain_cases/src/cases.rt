//! A case: what is to be said of a step or a state, and whether it is.
use crate::edits::edited;
use crate::facts::is_left;
use crate::said::{Said, read};
use plain_checker::judge;
use plain_moves::{Step, moved};
use plain_sound::{PARTS, is_lawful, keeps};
use plain_words::State;
use xp_board::{Act, Mark, StepKind};

/// The kinds of steps, by name.
static KINDS: [(&str, StepKind); 17] = [
    ("Look", StepKind::Look),
    ("Ref", StepKind::Ref),
    ("Kind", StepKind::Kind),
    ("Cell", StepKind::Cell),
    ("M2p", StepKind::M2p),
    ("Pages", StepKind::Pages),
    ("Context", StepKind::Context),
    ("Tick", StepKind::Tick),
    ("Ask", StepKind::Ask),
    ("Ack", StepKind::Ack),
    ("Life", StepKind::Life),
    ("Run", StepKind::Run),
    ("Priv", StepKind::Priv),
    ("Hint", StepKind::Hint),
    ("Guest", StepKind::Guest),
    ("Fill", StepKind::Fill),
    ("Touch", StepKind::Touch),
];

/// What a line says that is not a case.
const UNREAD: &str = "it says nothing";

/// The name of the case that a line gives, and the first that is otherwise than it says: the verdict, a part or a fact.
pub fn judged(line: &str) -> (&str, Option<&str>) {
    let mut fields = line.split('|');
    let name = fields.next().unwrap_or("").trim();
    let edits = fields.next().unwrap_or("").trim();
    let third = fields.next().unwrap_or("").trim();
    let amiss = match (edited(edits), fields.next()) {
        (None, _) => Some(UNREAD),
        (Some(state), None) => amiss_in(&state, third),
        (Some(state), Some(last)) => match step_of(third) {
            Some(step) => amiss_after(&state, &step, last.trim()),
            None => Some(UNREAD),
        },
    };
    (name, amiss)
}

/// A word and what stands behind it.
fn parted(text: &str) -> (&str, &str) {
    text.split_once(' ').unwrap_or((text, ""))
}

/// The tree below that frame, as a table of that type of domain 0, is lawful, or it is not.
fn amiss_of_tree<'a>(state: &State, verdict: &'a str) -> Option<&'a str> {
    let Some(tree) = read(verdict) else {
        return Some(UNREAD);
    };
    let lawful = is_lawful(state, 0, tree.numbers[0], tree.kind);
    (lawful != (tree.name == "lawful")).then_some(verdict)
}

/// A state keeps all parts, or those that are named fail and no others; or it has such a tree.
fn amiss_in<'a>(state: &State, verdict: &'a str) -> Option<&'a str> {
    match parted(verdict) {
        ("sound", "") => amiss_of_parts(state, ""),
        ("fails", parts) => amiss_of_parts(state, parts),
        ("lawful" | "unlawful", _) => amiss_of_tree(state, verdict),
        _ => Some(UNREAD),
    }
}

/// A step of vCPU 0 is legal, and after it no part fails; or it is refused, and those that are named fail after it; or
/// it is legal, and leaves what is named.
fn amiss_after<'a>(state: &State, step: &Step, verdict: &'a str) -> Option<&'a str> {
    let (word, rest) = parted(verdict);
    let legal = judge(state, 0, step);
    let after = moved(state, 0, step);
    if legal == (word == "refused") {
        return Some(word);
    }
    match (word, rest) {
        ("legal", "") | ("refused", _) => match amiss_of_parts(state, "") {
            Some(part) => Some(part),
            None => amiss_of_parts(&after, rest),
        },
        ("leaves", facts) => amiss_of_facts(&after, facts),
        _ => Some(UNREAD),
    }
}

/// The first part that fails and is not named, or is named and does not fail.
fn amiss_of_parts<'a>(state: &State, named: &'a str) -> Option<&'a str> {
    let mut count: usize = 0;
    for (name, part) in &PARTS {
        let mut fails = false;
        for other in named.split(", ") {
            fails = fails || other == *name;
        }
        if keeps(state, *part) == fails {
            return Some(*name);
        }
        count = count.saturating_add(usize::from(fails));
    }
    let all = if named.is_empty() {
        0
    } else {
        named.split(", ").count()
    };
    (count != all).then_some(UNREAD)
}

/// The first fact that is not so.
fn amiss_of_facts<'a>(state: &State, facts: &'a str) -> Option<&'a str> {
    for text in facts.split(", ") {
        match read(text) {
            Some(fact) if fact.then.is_empty() && is_left(state, &fact) => {}
            _ => return Some(text),
        }
    }
    None
}

/// A kind, a place and an act, and behind `with` a mark.
fn step_of(text: &str) -> Option<Step> {
    let (step, mark) = match text.split_once(" with ") {
        Some((step, mark)) => (read(step)?, Some(mark_of(&read(mark)?)?)),
        None => (read(text)?, None),
    };
    for (name, kind) in &KINDS {
        if *name == step.name {
            return Some(Step {
                place: step.place?,
                act: act_of(&step)?,
                kind: *kind,
                mark,
            });
        }
    }
    None
}

fn act_of(step: &Said) -> Option<Act> {
    let [first, second, _, _] = step.numbers;
    match step.then {
        "load" => Some(Act::Load),
        "cas" => Some(Act::Cas {
            expected: first,
            new: second,
        }),
        "store" => Some(Act::Store { new: first }),
        "add" => Some(Act::Add { by: first }),
        "max" => Some(Act::Max { value: first }),
        _ => None,
    }
}

fn mark_of(mark: &Said) -> Option<Mark> {
    let [first, second, _, _] = mark.numbers;
    let frame = u32::try_from(first).ok()?;
    let upto = u16::try_from(second).ok()?;
    match mark.name {
        "Record" => Some(Mark::Record { frame, upto }),
        "Shed" => Some(Mark::Shed { frame, upto }),
        "Cut" => Some(Mark::Cut { call: frame }),
        "Turn" => Some(Mark::Turn),
        "Forget" => Some(Mark::Forget { page: first }),
        "Walk" => Some(Mark::Walk { write: first == 1 }),
        _ => None,
    }
}
