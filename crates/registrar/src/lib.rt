//! The registrar, the one party that keeps the group: all its views, whom it has heard to have stopped, and
//! the links that wait for their receivers. It is asked one request after another, so that all changes of
//! membership stand in one order, as those of `gm` do in its one registry. Begin at `Registrar`.
#![tactic(auto)]

mod giving;
mod judging;
mod laws;
mod registrar;
#[cfg(test)]
mod tests;
mod waiting_link;

pub use laws::other_events_leave_the_registrar;
pub use registrar::Registrar;
pub use waiting_link::WaitingLink;
