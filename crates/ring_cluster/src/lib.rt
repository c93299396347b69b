//! The cluster: the members of a ring over ring pairs, each with its view of the group, the registrar that keeps
//! the views, the journal of what has happened among them, and a driver that gives each member its turns until
//! nothing is left to do.
//! Begin at `Cluster`, and at specs/Seen.antt for what is seen of one.
#![tactic(auto)]

mod agenda;
mod clients;
mod cluster;
mod driver;
mod laws;
mod numbering;
mod published;

pub use cluster::Cluster;
pub use laws::{a_quiet_ring_has_heard_all, an_idle_ring_is_at_rest};
pub use ring_parties::Node;
