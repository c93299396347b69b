//! A publisher's book of its own messages: how many of each kind it has published, and how many of these have
//! come round the ring: each member that is up has received these, or counted them by its first packet. Begin at `Book`.
#![tactic(auto)]

mod book;
mod count;
mod kind;
mod laws;
mod marks;
#[cfg(test)]
mod tests;

pub use book::{Book, Totals};
pub use kind::Kind;
pub use laws::{a_book_is_of_its_log, the_totals_count_what_is_confirmed};
