//! The views of a group, as `gm` has them: the members in ring order, who is whose neighbour, who answers
//! for whom, and what the registrar is asked of them. Each change of membership is a new version of one
//! view, and all later questions are answered from it. Begin at `View`.
#![tactic(auto)]

mod entries;
mod entry;
mod fault;
mod laws;
mod link;
mod names;
mod request;
mod ring;
#[cfg(test)]
mod tests;
mod view;

pub use entries::Entries;
pub use entry::{Entry, Mark};
pub use fault::ViewFault;
pub use laws::{
    a_mark_passes_neighbours_on, an_admission_comes_between, an_erasure_keeps_neighbours,
    every_view_keeps_since, neighbours_are_mutual, owners_own_what_stands_between,
    since_says_who_was_left, versions_are_few,
};
pub use link::{LinkKind, LinkName};
pub use names::{MOST_MEMBERS, are_opening_names};
pub use request::{Answer, Deposited, Request};
pub use view::View;
