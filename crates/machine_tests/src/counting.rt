//! How often a vCPU did what to a word.
ghost use Rattle.std.specs.Prelude.{◌≡◌};

use xp_board::Act;

/// How many steps were loads, exchanges, stores, and sums or maxima. Each number stands still at 2^32 - 1.
#[derive(Clone, Copy, Debug, PartialEq, Eq, Drop)]
pub struct Counts {
    pub loads: u32,
    pub exchanges: u32,
    pub stores: u32,
    pub sums: u32,
}

impl Counts {
    ghost use Rattle.machine_tests.specs.Counted.{counted_act};

    /// Of no steps.
    pub fn none() -> Counts
        ensures { result ≡ record { loads = 0; exchanges = 0; stores = 0; sums = 0 } }
    {
        Counts {
            loads: 0,
            exchanges: 0,
            stores: 0,
            sums: 0,
        }
    }

    /// One step more, which does this to its word.
    pub fn count(&mut self, act: &Act)
        ensures { self.new ≡ counted_act act.now self.old }
    {
        match act {
            Act::Load => self.loads = self.loads.saturating_add(1),
            Act::Cas { .. } => self.exchanges = self.exchanges.saturating_add(1),
            Act::Store { .. } => self.stores = self.stores.saturating_add(1),
            Act::Add { .. } | Act::Max { .. } => self.sums = self.sums.saturating_add(1),
        }
    }
}
