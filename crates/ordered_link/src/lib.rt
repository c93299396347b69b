//! Links: one way for items from a sender to its receiver, and a way back for grants of credit.
//! Begin at `LinkOut` and `LinkIn`, the two ends, at `plain_pair`, whose ends share no memory, and at
//! `ring_pair`, whose ends may stand in threads of their own.
#![tactic(auto)]

mod ends;
mod grant;
mod item;
mod laws;
mod meeting;
mod pair;
mod plain;
mod ring;
mod ring_meeting;
#[cfg(test)]
mod tests;

pub use ends::{LinkIn, LinkOut, LinkPair};
pub use grant::Grant;
pub use item::{EndReason, Item};
pub use laws::{
    a_round_balances_each_link, ends_may_always_meet, ends_that_met_are_exact,
    every_link_keeps_its_order, every_ring_end_keeps_its_name, every_ring_link_ends_once,
    every_ring_link_keeps_its_order,
};
pub use meeting::meet;
pub use pair::{plain_pair, ring_pair};
pub use plain::{PlainIn, PlainOut};
pub use ring::{RingIn, RingOut};
pub use ring_meeting::ring_meet;
