//! What bytes are as a journal.
use ring_names::{Items, Reason};
use ring_rules::Event;
use ring_world::World;

/// What bytes are as a journal. Lines count from 1.
#[derive(Drop)]
pub enum Verdict {
    /// The journal of a run: its events in their order, and the ring that they leave.
    Legal { world: World, events: Items<Event> },
    /// The event on this line isn't enabled behind those before it, for this reason: the first condition that fails.
    Illegal { line: u32, reason: Reason },
    /// This line can't be read: the number of what is wrong with it, 70 to 74, as `Kind` has them.
    Unreadable { line: u32, kind: u32 },
}
