//! Copies of the mirrored queue beside a ring: what each step does, and the laws over runs with them. Begin at
//! `every_state_is_lawful_with_copies`.
#![tactic(auto)]

mod laws;

pub use laws::{
    a_ring_settles_beside_copies, every_number_is_bounded_with_copies,
    every_queue_is_right_with_copies, every_state_is_lawful_with_copies,
    later_masters_start_first_with_copies, nothing_falls_with_copies, repairs_end_with_copies,
    where_nothing_is_left_all_is_quiet_with_copies,
};
