//! A copy of the master's queue for a mirror that lacks some of it, as `rabbit_mirror_queue_sync` makes one: its sender gives
//! the items one after another, its receiver keeps them aside until all are there. Begin at `SyncOut` and `SyncIn`.
#![tactic(auto)]

mod load;
mod receiver;
mod sender;
#[cfg(test)]
mod tests;

pub use load::{CopyItem, CopyLoad};
pub use receiver::{SyncFault, SyncIn};
pub use sender::SyncOut;
