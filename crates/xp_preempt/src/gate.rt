ghost use Rattle.std.specs.Prelude.{◌≡◌, [], ◌∷◌};
ghost use Rattle.xp_preempt.specs.Gates.{Consulted, Gate, IsPaced};

/// A gate. It belongs to one vCPU, which asks it between the parts of an operation.
pub trait Preempt: Drop {
    /// What it is, as one value.
    ghost policy: { Self → Gate };

    /// Sets the pace of a gate that has one; 0 stands for never. Another gate says what it said.
    fn pace(&mut self, every: u32)
        ensures { IsPaced every (policy self.old) (policy self.new) };

    /// Whether the vCPU pauses here. At the end of the numbers it answers false.
    fn due(&mut self) -> bool
        ensures { Consulted (policy self.old) (policy self.new) (result ∷ []) };

    /// How often `due` answered true.
    fn yes(&self) -> u64
        ensures { result ≡ (policy self.now).yes };
}
