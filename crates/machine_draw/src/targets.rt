ghost use Rattle.std.specs.Prelude.{◌≡◌};
ghost use Rattle.machine_draw.specs.Targets.{entry_target, context_target, is_frame};

use pte_check::demand;
use xp_words::{ContextWord, Demand, PageType};

/// The frame that entry `index` of a table of that type names. The machine may have no such frame.
#[tactic(auto, unfolding(crate::specs::Targets::entry_target))]
pub fn entry_target(kind: PageType, index: u16, word: u64) -> Option<u64>
    ensures { result ≡ entry_target kind index word }
{
    match demand(kind, index, word) {
        Demand::Read { frame } | Demand::Typed { frame, .. } => Some(frame),
        Demand::Nothing | Demand::Bad => None,
    }
}

/// The frame that word `index` of a vCPU names. The machine may have no such frame.
#[tactic(auto, unfolding(crate::specs::Targets::context_target), using(std::proofs::lemmas::Bool::Decides::nat_tests))]
pub fn context_target(index: u32, word: u64) -> Option<u64>
    ensures { result ≡ context_target index word }
{
    if 4 <= index && index < 8 {
        return None;
    }
    match ContextWord::read(word) {
        Some(ContextWord { frame: Some(frame) }) => Some(u64::from(frame)),
        _ => None,
    }
}

/// Whether it is that frame.
pub fn is_frame(frame: u64, target: Option<u64>) -> bool
    ensures { result ≡ is_frame frame target }
{
    match target {
        Some(named) => named == frame,
        None => false,
    }
}
