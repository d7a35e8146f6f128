ghost use Rattle.std.specs.Prelude.{◌≡◌, Some};
ghost use Rattle.step_text.specs.Names.{access_text, act_text, kind_text, mark_text, sum_text};

use std::fmt;
use xp_board::{Act, Mark, StepKind};

/// What a step is for.
#[tactic(auto, unfolding(crate::specs::Names::kind_text))]
pub fn kind_text(kind: StepKind) -> &'static str
    ensures { result.now ≡ kind_text kind }
{
    match kind {
        StepKind::Look => "look",
        StepKind::Ref => "ref",
        StepKind::Kind => "kind",
        StepKind::Cell => "cell",
        StepKind::M2p => "m2p",
        StepKind::Pages => "pages",
        StepKind::Context => "context",
        StepKind::Fill => "fill",
        StepKind::Guest => "guest",
        StepKind::Tick => "tick",
        StepKind::Ask => "ask",
        StepKind::Ack => "ack",
        StepKind::Life => "life",
        StepKind::Run => "run",
        StepKind::Hint => "hint",
        StepKind::Touch => "touch",
        StepKind::Priv => "priv",
    }
}

/// What is added to a word, modulo 2^64: from 2^63 on it is written as what it takes away.
#[derive(Clone, Copy)]
struct SumText(u64);

#[tactic(auto, unfolding(crate::specs::Names::sum_text), using(std::proofs::lemmas::Bool::Decides::nat_tests))]
impl fmt::Display for SumText {
    ghost output = { λ s. Some (sum_text s.0) };

    fn fmt<W: fmt::Write>(&self, f: &mut fmt::Formatter<W>) -> fmt::Result {
        let by = self.0;
        if by < 1 << 63 {
            write!(f, "0x{by:x}")
        } else {
            let less = u64::MAX - by + 1;
            write!(f, "-0x{less:x}")
        }
    }
}

/// What a step does to its word.
#[derive(Clone, Copy)]
pub struct ActText(pub Act);

#[tactic(auto, unfolding(crate::specs::Names::act_text))]
impl fmt::Display for ActText {
    ghost output = { λ s. Some (act_text s.0) };

    fn fmt<W: fmt::Write>(&self, f: &mut fmt::Formatter<W>) -> fmt::Result {
        match self.0 {
            Act::Load => f.write_str("load"),
            Act::Cas { expected, new } => write!(f, "cas 0x{expected:x} to 0x{new:x}"),
            Act::Store { new } => write!(f, "store 0x{new:x}"),
            Act::Add { by } => write!(f, "add {}", SumText(by)),
            Act::Max { value } => write!(f, "max 0x{value:x}"),
        }
    }
}

fn access_text(write: bool) -> &'static str
    ensures { result.now ≡ access_text write }
{
    if write { "write" } else { "read" }
}

/// What a step means beside its act: a space and the mark, where it has one.
#[derive(Clone, Copy)]
pub struct MarkText(pub Option<Mark>);

#[tactic(auto, unfolding(crate::specs::Names::mark_text))]
impl fmt::Display for MarkText {
    ghost output = { λ s. Some (mark_text s.0) };

    fn fmt<W: fmt::Write>(&self, f: &mut fmt::Formatter<W>) -> fmt::Result {
        match self.0 {
            None => Ok(()),
            Some(Mark::Record { frame, upto }) => write!(f, " record {frame} {upto}"),
            Some(Mark::Shed { frame, upto }) => write!(f, " shed {frame} {upto}"),
            Some(Mark::Forget { page }) => write!(f, " forget 0x{page:x}"),
            Some(Mark::Cut { call }) => write!(f, " cut {call}"),
            Some(Mark::Turn) => f.write_str(" turn"),
            Some(Mark::Walk { write }) => write!(f, " walk {}", access_text(write)),
        }
    }
}
