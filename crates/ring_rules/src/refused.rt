//! Why an event did not happen.

use ring_names::Reason;

/// Why an event did not happen. Nothing has changed.
#[derive(Clone, Copy, PartialEq, Eq, Debug)]
pub enum Refused {
    /// The first of its conditions that fails.
    NotEnabled(Reason),
    /// Memory was wanted and not found.
    OutOfMemory,
}
