use xp_board::Step;

/// A step, whose it was, and the word that it found.
#[derive(Clone, Copy, Debug, PartialEq, Eq, Drop)]
pub struct ToldStep {
    pub vcpu: u32,
    pub step: Step,
    pub found: u64,
}
