//! The parties of a cluster: its members over ring pairs, the registrar that keeps their views, and a link that
//! hasn't reached it yet. They do one event of the ring, or say why not.
//! Begin at `Parties`, and at specs/Parties.antt for what parties show.
#![tactic(auto)]

mod acting;
mod admitting;
mod collecting;
mod control;
mod laws;
mod looking;
mod meeting;
mod node;
mod opening;
mod pairing;
mod parties;
mod party;
mod pending_deposit;
mod queue;
mod refusing;
mod side_by_side;
mod stepping;
mod turn;
mod turning;

pub use laws::{
    a_round_is_a_run, an_empty_round_is_closed, every_state_has_its_members,
    parties_are_in_their_state, parties_stand_after_a_round,
};
pub use node::Node;
pub use parties::Parties;
pub use refusing::is_passing;
pub use side_by_side::Round;
