//! A member of the ring as `gm` runs one, over the ends of its links: it has a view of the group, publishes, puts what
//! is new on the link to its right neighbour under credit, and takes what its left neighbour put. Where a neighbour
//! stops, it has the registrar mark it, reads the newer view, opens a link to the next one, and picks one up that waits
//! at its door. It keeps of each origin the messages that aren't acknowledged everywhere, and packets carry what is
//! new. Begin at `Member`, and at specs/Held.antt for what a member holds and what its steps do to it.
#![tactic(auto)]

mod arrivals;
mod door;
mod ends;
mod fault;
mod links;
mod member;
mod news;
mod numbers;
mod questions;
mod recording;
mod saying;
mod spare;
mod taken;
mod telling;
mod views;

pub use fault::MemberFault;
pub use links::{InLink, OutLink};
pub use member::Member;
pub use news::view_refusal;
pub use questions::Ask;
pub use taken::Taken;
