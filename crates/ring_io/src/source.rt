//! What bytes are read from.
ghost use Rattle.std.specs.Prelude.{◌≡◌, ℕ, ◌≤◌, List, Option, OnErr};
ghost use Rattle.std.specs.Io.{ReadsAtMost};
ghost use Rattle.std.specs.Io.KnownBytes.{ReadConsumes};
ghost use Rattle.ring_io.specs.Count.{Rose};

/// A read or a write that failed. The source or the sink has counted a fault.
#[derive(Clone, Copy, PartialEq, Eq, Debug)]
pub struct Failed;

/// Where bytes are read from. It fails only where its count of faults rises.
pub trait Source {
    /// The bytes left, where they are told.
    ghost remaining: { Self → Option (List ℕ) };

    /// How many calls have failed. It never falls, and stands still at the last value of a `u64`.
    ghost faults: { Self → ℕ };

    /// Moves the next bytes into the front of `buf`, and answers how many they are. 0 for a `buf`
    /// that isn't empty is the end of the input. A call that fails has moved nothing.
    fn read(&mut self, buf: &mut [u8]) -> Result<usize, Failed>
        ensures bound { ReadsAtMost result buf.new }
        ensures bytes { ReadConsumes (remaining self.old) (remaining self.new) result buf.new }
        ensures never_falls { faults self.old ≤ faults self.new }
        ensures failed { OnErr result (Rose (faults self.old) (faults self.new)) };
}
