//! Names, bodies and numbers: the words that every other crate of the ring speaks in.
//! Begin at `Name` and `Body`, whose readers say what text is taken, and at `Reason`, the refusals.
#![tactic(auto)]

mod body;
mod items;
mod memory;
mod name;
mod numbers;
mod reason;
#[cfg(test)]
mod tests;

pub use body::{Body, BodyFault};
pub use items::Items;
pub use memory::OutOfMemory;
pub use name::{Name, NameFault};
pub use numbers::{CreditSpec, MemberId, Position, Stamp};
pub use reason::Reason;
