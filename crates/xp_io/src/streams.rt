ghost use Rattle.std.specs.Prelude.{ℕ, ◌<◌, List, Option, length, IfOk};
ghost use Rattle.std.specs.Io.{ReadsAtMost, WritesAtMost};
ghost use Rattle.std.specs.Io.KnownBytes.{ReadConsumes, WriteAppends};
ghost use Rattle.xp_io.specs.Causes.{HasCause};

/// A read or a write that did not succeed. The object that failed has counted it.
#[derive(Clone, Copy, Debug, PartialEq, Eq)]
pub struct Failed;

/// Where bytes come from, in an order of the source's own. After a fault a reader may go on where it was.
pub trait Source {
    /// The bytes that reads will give, where they are told.
    ghost left: { Self → Option (List ℕ) };

    /// How often it failed; it stands still at 2^64 - 1.
    ghost faults: { Self → ℕ };

    /// Moves the next bytes to the front of `into`. 0 is the end of the input.
    fn read(&mut self, into: &mut [u8]) -> Result<usize, Failed>
        requires { 0 < length into.old }
        ensures bound { ReadsAtMost result into.new }
        ensures bytes { ReadConsumes (left self.old) (left self.new) result into.new }
        ensures cause { HasCause (faults self.old) (faults self.new) result };
}

/// Where bytes go. After a fault a writer may go on where it was.
pub trait Sink {
    /// The bytes that it took, where they are told.
    ghost taken: { Self → Option (List ℕ) };

    /// How often it failed; it stands still at 2^64 - 1.
    ghost faults: { Self → ℕ };

    /// Appends a front of `bytes`, of at least one byte, and says how long it is.
    fn write(&mut self, bytes: &[u8]) -> Result<usize, Failed>
        requires { 0 < length bytes.now }
        ensures bound { WritesAtMost result bytes.now }
        ensures some { IfOk result (λ n. 0 < n) }
        ensures bytes { WriteAppends (taken self.old) (taken self.new) result bytes.now }
        ensures cause { HasCause (faults self.old) (faults self.new) result };
}
