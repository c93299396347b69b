//! What is called around each turn of a round.
use ring_names::MemberId;

/// What a gate is told before a turn.
pub const BEFORE: u8 = 1;

/// What a gate is told after a turn.
pub const AFTER: u8 = 2;

/// Told of the turns of a round, and free to hold the caller up there.
pub trait Gate: Sync {
    /// A turn of `who` begins, at `kind` `BEFORE`, or is over, at `kind` `AFTER`.
    fn pass(&self, who: MemberId, kind: u8);
}

/// A gate that does nothing.
#[derive(Clone, Copy, Debug)]
pub struct ShutGate;

impl Gate for ShutGate {
    fn pass(&self, _who: MemberId, _kind: u8) {}
}
