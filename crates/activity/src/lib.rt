//! What a member sends round as `gm`'s `activity` messages: packets with only what is new on their link,
//! what a packet does to a member that takes it, and what a member keeps of each origin meanwhile. Begin at
//! `Tables`.
#![tactic(auto)]

mod change;
mod laws;
mod packet;
mod saying;
mod sending;
mod sent;
mod table;
mod tables;
mod taking;
#[cfg(test)]
mod tests;

pub use change::Change;
pub use laws::{a_packet_and_its_plan_give_the_numbers, no_more_is_sent_than_is_kept};
pub use packet::{Line, Load, Packet};
pub use saying::{is_new, says_all};
pub use sending::diff;
pub use sent::{Sent, SentRow};
pub use table::Table;
pub use tables::{KeptNumbers, Tables};
pub use taking::{line_change, plan};
