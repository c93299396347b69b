//! The ring as a plain machine, which obeys the rules of ring_rules and, of copies of the queue, of ring_copies: what each
//! event does, as code on structs. Begin at `World`. The rules, and how the ring goes on, are told at the head of ring_rules.
#![tactic(auto)]

mod arms;
mod asked;
mod asking;
mod changing;
mod conditions;
mod copies;
mod copying;
mod dispatch;
mod erasing;
mod joining;
mod log;
mod marking;
mod membership;
mod neighbours;
mod operations;
mod places;
mod plain_copy;
mod plain_link;
mod plain_links;
mod plain_member;
mod plain_members;
mod queue_rest;
mod quiet;
mod refreshing;
mod refusing;
mod starting;
mod state;
mod stepping;
mod syncing;
mod taking;
mod walk;
mod world;

pub use group_view::are_opening_names;
pub use ring_rules::{
    Client, Counts, Ending, Event, MemberState, Numbers, Phase, Refused, an_idle_ring_is_quiet,
    each_step_of_repair_leaves_less_to_do, every_queue_is_right, every_ring_settles,
    every_state_is_lawful, later_masters_start_first, nothing_falls_through_deaths,
};
pub use world::World;
