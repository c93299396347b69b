//! What goes back on a link.

use ring_names::Stamp;

/// Credit that a receiver gives back to its sender.
#[derive(Clone, Copy, PartialEq, Eq, Debug)]
pub struct Grant {
    /// How many more loads may be put.
    pub amount: u32,
    /// When it was granted.
    pub stamp: Stamp,
}
