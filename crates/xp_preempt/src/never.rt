ghost use Rattle.std.specs.Prelude.{◌≡◌, true, false};
ghost use Rattle.xp_preempt.specs.Gates.{next_ask};

use crate::gate::Preempt;

/// A gate that never says yes.
#[derive(Drop)]
pub struct Never {
    asks: u64,
}

impl Never {
    /// A gate that was never asked.
    pub fn new() -> Never
        ensures { result ≡ record { asks = 0 } }
    {
        Never { asks: 0 }
    }
}

impl Preempt for Never {
    ghost policy = { λ g. record { paces = false; asks = g.asks; yes = 0; says = λ _. false } };

    fn pace(&mut self, every: u32) {}

    fn due(&mut self) -> bool
        ensures never { result ≡ false }
        ensures asked { self.new.asks ≡ next_ask self.old.asks }
    {
        if self.asks != u64::MAX {
            self.asks += 1;
        }
        false
    }

    fn yes(&self) -> u64
        ensures { result ≡ 0 }
    {
        0
    }
}
