//! The credit of a link, as `credit_flow` has it: a sender spends one for each load, and its receiver
//! grants more after each so many loads. Begin at `CreditOut`, the sender's end, and at `CreditIn`, the
//! receiver's; `credit_is_kept` says what the two keep between them.
#![tactic(auto)]

mod laws;
mod receiver;
mod sender;
#[cfg(test)]
mod tests;

pub use laws::credit_is_kept;
pub use receiver::CreditIn;
pub use sender::CreditOut;
