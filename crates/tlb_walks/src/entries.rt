//! The steps of a walk, one each.
ghost use Rattle.std.specs.Prelude.{◌≡◌, ◌≢◌, ◌<◌, ◌≤◌, true, None, Some, IfErr, MatchResult, IsTrue};
ghost use Rattle.xp_words.specs.declared.place.Place.TheVariants.{Vcpu, Cell};
ghost use Rattle.xp_board.specs.FillSteps.{MayWalkOn};
ghost use Rattle.xp_board.specs.TouchSteps.{MayTouch};
ghost use Rattle.xp_board.specs.declared.holdings.Walk.{Walk};
ghost use Rattle.xp_board.specs.declared.step.Act.TheVariants.{Load, Cas};
ghost use Rattle.xp_board.specs.declared.step.Mark.TheVariants as marks;
ghost use Rattle.xp_board.specs.declared.step.StepKind.TheVariants as kinds;
ghost use Rattle.step_maker.specs.Moves.{Moves, found_by};
ghost use Rattle.own_cache.specs.Translating.{flown, gone_on, set_bits, landed, translating, walk_begun};
ghost use Rattle.tlb_walks.specs.Flying.{WalkReady, Turned};
ghost use Rattle.tlb_walks.specs.Walks.{top_word};

use step_maker::{exchange, make};
use xp_board::{Act, Mark, Port, StepKind};
use xp_words::Place;

// The words of a vCPU that name the top tables.
const BASE: u32 = 0;

const USER_BASE: u32 = 1;

fn base_of(user: bool) -> u32
    ensures { result ≡ top_word user }
{
    if user { USER_BASE } else { BASE }
}

/// A walk begins: loads the word that names the top table.
pub(crate) fn load_base<P: Port>(port: &mut P, user: bool, write: bool) -> u64
    requires ready { WalkReady (P.value port.old) }
    requires landed { (P.value port.old).holdings.walk ≡ None }
    ensures moves { Moves (P.value port.old) (P.value port.new) (Vcpu (P.value port.old).post.vcpu (top_word user)) Load kinds.Fill (Some (marks.Walk write)) result }
    ensures hand { Turned (P.value port.old) (P.value port.new) (walk_begun user write result (translating (P.value port.old).holdings)) }
{
    let vcpu = port.vcpu();
    let word = base_of(user);
    make(
        port,
        Place::Vcpu { vcpu, word },
        Act::Load,
        StepKind::Fill,
        Some(Mark::Walk { write }),
    )
}

/// The walk loads its next entry.
pub(crate) fn load_entry<P: Port>(port: &mut P, table: u32, index: u16) -> u64
    requires ready { WalkReady (P.value port.old) }
    requires table { table < (P.value port.old).post.machine.frames }
    requires index { index < 512 }
    requires flying { (walk : Walk) × MayWalkOn table index walk (P.value port.old).holdings }
    ensures moves { Moves (P.value port.old) (P.value port.new) (Cell table index) Load kinds.Fill None result }
    ensures hand { Turned (P.value port.old) (P.value port.new) (gone_on (P.value port.old).post.machine.frames index result (flown (P.value port.old).holdings.walk) (translating (P.value port.old).holdings)) }
{
    make(
        port,
        Place::Cell {
            frame: table,
            index,
        },
        Act::Load,
        StepKind::Fill,
        None,
    )
}

/// The walk sets bits of the entry that it loaded, by one exchange.
pub(crate) fn touch_entry<P: Port>(
    port: &mut P,
    table: u32,
    index: u16,
    word: u64,
    new: u64,
) -> Result<(), u64>
    requires ready { WalkReady (P.value port.old) }
    requires table { table < (P.value port.old).post.machine.frames }
    requires index { index < 512 }
    requires touching { (walk : Walk) × MayTouch table index word new walk (P.value port.old).holdings }
    ensures moves { Moves (P.value port.old) (P.value port.new) (Cell table index) (Cas word new) kinds.Touch None (found_by word result) }
    ensures lost { IfErr result (λ found. found ≢ word) }
    ensures hand { MatchResult result (λ _. Turned (P.value port.old) (P.value port.new) (set_bits (P.value port.old).post.machine.frames true new (flown (P.value port.old).holdings.walk) (translating (P.value port.old).holdings))) (λ _. Turned (P.value port.old) (P.value port.new) (landed (translating (P.value port.old).holdings))) }
{
    exchange(
        port,
        Place::Cell {
            frame: table,
            index,
        },
        word,
        new,
        StepKind::Touch,
    )
}
