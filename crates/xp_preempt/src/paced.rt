ghost use Rattle.std.specs.Prelude.{◌≡◌, ◌+◌, ◌==◌, true, false, if◌then◌else◌};
ghost use Rattle.xp_preempt.specs.Gates.{is_in_step, paced_due, paced_on};

use crate::gate::Preempt;
use std::marker::Model;

/// A gate that says yes at each so many asks, counted over its whole life.
#[derive(Drop)]
pub struct Paced {
    every: u32,
    asks: u64,
    yes: u64,
}

impl Model for Paced {
    ghost use Rattle.std.specs.Prelude.{◌≤◌};
    ghost use Rattle.xp_preempt.specs.Gates.{Pacing};

    ghost Value = { Pacing };

    ghost view = { λ g. record { every = g.every; asks = g.asks; yes = g.yes } };

    ghost invariant = { λ g. g.yes ≤ g.asks };
}

impl Paced {
    /// A gate that was never asked, and says no until a pace is set.
    pub fn new() -> Paced
        ensures { result ≡ record { every = 0; asks = 0; yes = 0 } }
    {
        Paced {
            every: 0,
            asks: 0,
            yes: 0,
        }
    }
}

// Whether the ask with that number is one of every so many.
fn is_in_step(every: u32, ask: u64) -> bool
    ensures { result ≡ is_in_step every ask }
{
    every != 0 && ask % u64::from(every) == 0
}

impl Preempt for Paced {
    ghost policy = { λ g. record { paces = true; asks = g.asks; yes = g.yes; says = λ n. is_in_step g.every n } };

    fn pace(&mut self, every: u32)
        ensures { self.new ≡ record self.old { every = every } }
    {
        self.every = every;
    }

    fn due(&mut self) -> bool
        ensures due { result ≡ paced_due self.old }
        ensures on { self.new ≡ paced_on self.old }
    {
        if self.asks == u64::MAX {
            return false;
        }
        self.asks += 1;
        let due = is_in_step(self.every, self.asks);
        if due {
            self.yes += 1;
        }
        due
    }

    fn yes(&self) -> u64
        ensures { result ≡ self.now.yes }
    {
        self.yes
    }
}
