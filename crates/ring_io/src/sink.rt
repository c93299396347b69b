//! What bytes are written to.
ghost use Rattle.std.specs.Prelude.{◌≡◌, ℕ, ◌<◌, ◌≤◌, Bool, List, Option, length, IfOk, OnErr};
ghost use Rattle.ring_io.specs.Contents.{WriteGains};
ghost use Rattle.ring_io.specs.Count.{Rose};

use crate::source::Failed;

/// Where bytes are written to. It fails only where its count of faults rises.
pub trait Sink {
    /// The bytes held, where they are told.
    ghost contents: { Self → Option (List ℕ) };

    /// How many calls have failed. It never falls, and stands still at the last value of a `u64`.
    ghost faults: { Self → ℕ };

    /// Whether bytes that are told may be told no longer.
    ghost may_lose_track: { Bool };

    /// Takes bytes from the front of `piece`, one at least, and answers how many. A call that fails
    /// has taken nothing.
    fn write(&mut self, piece: &[u8]) -> Result<usize, Failed>
        requires { 0 < length piece.now }
        ensures some { IfOk result (λ n. 0 < n) }
        ensures bound { IfOk result (λ n. n ≤ length piece.now) }
        ensures bytes { WriteGains may_lose_track (contents self.old) (contents self.new) result piece.now }
        ensures never_falls { faults self.old ≤ faults self.new }
        ensures failed { OnErr result (Rose (faults self.old) (faults self.new)) };
}
