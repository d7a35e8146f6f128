//! Marks that go with a step.
use crate::cells::has_last_demand;
use plain_words::{Hand, Work, demand_at, newest};
use xp_board::{Mark, StepKind};
use xp_words::{KindWord, PageType};

/// Whether the mark may go with a step of that kind.
pub fn allows(hand: &Hand, kind: StepKind, mark: Option<Mark>) -> bool {
    match mark {
        None | Some(Mark::Cut { .. }) | Some(Mark::Turn) => true,
        Some(Mark::Record { frame, upto }) => records(hand, u64::from(frame), u64::from(upto)),
        Some(Mark::Shed { frame, upto }) => sheds(hand, u64::from(frame), u64::from(upto)),
        Some(Mark::Forget { .. }) => hand.walk.is_none(),
        Some(Mark::Walk { .. }) => kind == StepKind::Fill,
    }
}

/// The type of a table in work, and whether it waits for flushes.
fn table_of(work: &Work) -> Option<(PageType, bool)> {
    let kind = KindWord::read(work.word)?;
    kind.kind.is_table().then_some((kind.kind, kind.unflushed))
}

/// The next entry of an unmarked table is the one that was seen last, and what it asks is in hand.
fn records(hand: &Hand, frame: u64, upto: u64) -> bool {
    let Some(work) = newest(&hand.works, frame) else {
        return false;
    };
    let (Some((kind, false)), Some(seen)) = (table_of(&work), work.seen) else {
        return false;
    };
    let next = work.recorded < 512 && upto == work.recorded + 1;
    let demand = demand_at(kind, seen.index, seen.word);
    next && hand.is_settled(&work)
        && seen.index == work.recorded
        && has_last_demand(hand, frame, kind, demand)
}

/// The last recorded entry is the one that was seen last.
fn sheds(hand: &Hand, frame: u64, upto: u64) -> bool {
    let Some(work) = newest(&hand.works, frame) else {
        return false;
    };
    let last = matches!(work.seen, Some(seen) if seen.index == upto);
    table_of(&work).is_some() && last && work.recorded == upto.saturating_add(1)
}
