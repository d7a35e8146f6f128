ghost use Rattle.std.specs.Prelude.{◌≡◌, ◌+◌, true, false, nat_eq, if◌then◌else◌};
ghost use Rattle.std.specs.List.{list_any};
ghost use Rattle.xp_preempt.specs.Gates.{listed_due, listed_on};

use crate::gate::Preempt;
use std::marker::Model;

/// A gate that says yes at the asks that are named in a list, and has no pace.
#[derive(Drop)]
pub struct Listed {
    yes_at: Vec<u64>,
    asks: u64,
    yes: u64,
}

impl Model for Listed {
    ghost use Rattle.std.specs.Prelude.{◌≤◌};
    ghost use Rattle.xp_preempt.specs.Gates.{Listing};

    ghost Value = { Listing };

    ghost view = { λ g. record { yes_at = g.yes_at.items; asks = g.asks; yes = g.yes } };

    ghost invariant = { λ g. g.yes ≤ g.asks };
}

impl Listed {
    /// A gate that was never asked. Asks are counted from 1.
    pub fn new(asks: Vec<u64>) -> Listed
        ensures { result ≡ record { yes_at = asks.items; asks = 0; yes = 0 } }
    {
        Listed {
            yes_at: asks,
            asks: 0,
            yes: 0,
        }
    }
}

impl Preempt for Listed {
    ghost policy = { λ g. record { paces = false; asks = g.asks; yes = g.yes; says = λ n. list_any (λ k. nat_eq k n) g.yes_at } };

    fn pace(&mut self, every: u32)
        ensures { self.new ≡ self.old }
    {}

    fn due(&mut self) -> bool
        ensures due { result ≡ listed_due self.old }
        ensures on { self.new ≡ listed_on self.old }
    {
        if self.asks == u64::MAX {
            return false;
        }
        self.asks += 1;
        let due = self.yes_at.contains(&self.asks);
        if due {
            self.yes += 1;
        }
        due
    }

    fn yes(&self) -> u64
        ensures { result ≡ self.now.yes }
    {
        self.yes
    }
}
