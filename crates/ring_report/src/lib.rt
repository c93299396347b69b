//! The report of a ring: the newest view, and of each member where it stands, what it has published, what it has heard,
//! what its mirror of the queue holds and what it refused. Begin at `report`, and at specs/Report.antt for its text. Its
//! pieces are public too, for who tells of a ring of another kind.
#![tactic(auto)]

mod items;
mod members;
mod refusals;
mod reporting;
mod summing;
#[cfg(test)]
mod tests;
mod view;

pub use items::{held_in, push_items};
pub use members::{push_cast, push_counts, push_state};
pub use refusals::{push_refusals, refusals_in};
pub use reporting::report;
pub use summing::{push_summary, summary};
pub use view::push_ring;
