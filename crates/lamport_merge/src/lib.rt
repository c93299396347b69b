//! Lamport clocks, the logs of the parties of a round, and the merge of these logs into one order.
//! Begin at `Recorder`, which keeps the clock and the log of a party, and at `merge` and `Gathered`, and at specs/Merge.antt for the order.
#![tactic(auto)]

mod clock;
mod gathered;
mod laws;
mod log;
mod order;
mod recorder;
#[cfg(test)]
mod tests;

pub use clock::Clock;
pub use gathered::Gathered;
pub use laws::merging_keeps_each_log;
pub use log::LocalLog;
pub use order::merge;
pub use recorder::Recorder;
