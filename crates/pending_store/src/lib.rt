//! What a member keeps of an origin: the messages that it got and has not yet forgotten, a slice of the
//! origin's log. Begin at `Store`.
#![tactic(auto)]

mod copied;
mod laws;
mod store;
#[cfg(test)]
mod tests;

pub use copied::Copied;
pub use laws::a_slice_of_the_log_stays_one;
pub use store::Store;
