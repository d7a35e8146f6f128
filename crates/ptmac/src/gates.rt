//! The gates of the vCPUs.
ghost use Rattle.std.specs.Prelude.{true};
ghost use Rattle.xp_preempt.specs.Gates.{is_in_step};

use xp_preempt::{Paced, Preempt};

/// A gate with a pace, away from others in memory. Each vCPU's thread writes the counts of its own gate at every ask; were two gates in one line of the
/// processors' caches, each such write would take it from the other thread's processor.
#[derive(Drop)]
pub(crate) struct Apart {
    gate: Paced,
    // Two lines, since processors fetch lines in pairs.
    _room: [u64; 16],
}

impl Apart {
    /// Never asked; it says no until a pace is set.
    pub(crate) fn new() -> Apart {
        Apart {
            gate: Paced::new(),
            _room: [0; 16],
        }
    }
}

impl Preempt for Apart {
    ghost policy = { λ g. record { paces = true; asks = g.gate.asks; yes = g.gate.yes; says = λ n. is_in_step g.gate.every n } };

    fn pace(&mut self, every: u32) {
        self.gate.pace(every);
    }

    fn due(&mut self) -> bool {
        self.gate.due()
    }

    fn yes(&self) -> u64 {
        self.gate.yes()
    }
}
