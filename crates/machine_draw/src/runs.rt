ghost use Rattle.std.specs.Prelude.{◌≡◌, Some};
ghost use Rattle.machine_draw.specs.Runs.{range_text};

use std::fmt;

/// A run of numbers, by its first and its last.
#[derive(Clone, Copy)]
pub struct RangeText {
    pub first: u32,
    pub last: u32,
}

#[tactic(auto, unfolding(crate::specs::Runs::range_text))]
impl fmt::Display for RangeText {
    ghost output = { λ r. Some (range_text r.first r.last) };

    fn fmt<W: fmt::Write>(&self, f: &mut fmt::Formatter<W>) -> fmt::Result {
        let first = self.first;
        let last = self.last;
        if first == last {
            write!(f, "{first}")
        } else {
            write!(f, "{first}-{last}")
        }
    }
}
