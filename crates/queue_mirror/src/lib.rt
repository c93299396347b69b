//! The mirrors of a queue, and what its master publishes: `rabbit_mirror_queue_slave` and `rabbit_mirror_queue_master`
//! in their parts that know nothing of the ring. Begin at `Mirror`.
#![tactic(auto)]

mod laws;
mod master;
mod mirror;
#[cfg(test)]
mod tests;

pub use laws::{
    a_copied_mirror_holds_the_queue, a_master_answers_legal_operations, a_mirror_holds_what_came,
    full_mirrors_hold_the_same,
};
pub use master::Master;
pub use mirror::Mirror;
