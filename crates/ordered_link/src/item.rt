//! What stands on a link.

use ring_names::Stamp;

/// Why a link ended.
#[derive(Clone, Copy, PartialEq, Eq, Debug)]
pub enum EndReason {
    /// The sender stopped.
    Stopped,
    /// The sender goes on at another link.
    Moved,
}

/// What stands on a link: loads, and after the last of them the end of the link.
#[derive(Drop, Debug)]
pub enum Item<T> {
    /// What was put.
    Load(T),
    /// Nothing more comes.
    End {
        /// Why the link ended.
        reason: EndReason,
        /// When it was put.
        stamp: Stamp,
    },
}
