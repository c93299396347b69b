//! Who leads once a master is erased: in a mirrored queue's promotion the oldest mirror, and in this profile the
//! oldest of those that are synchronised; and what it publishes first. Begin at `install`.
#![tactic(auto)]

mod election;
mod laws;
mod start;
#[cfg(test)]
mod tests;

pub use election::{elect, install};
pub use laws::{the_oldest_is_elected, who_is_elected_lives_and_is_registered};
pub use start::start_op;
