//! The queue under every mirror: its operations, and what each does to it. Begin at `Queue`.
#![tactic(auto)]

mod held;
mod laws;
mod message;
mod op;
mod queue;
mod slots;
#[cfg(test)]
mod tests;

pub use held::{CopyState, Held};
pub use laws::{items_stand_in_order, what_does_not_fit_changes_nothing, what_stood_and_what_came};
pub use message::Message;
pub use op::Op;
pub use queue::Queue;
