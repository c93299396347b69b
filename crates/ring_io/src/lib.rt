//! Byte streams that fail only where they count a fault: sources, sinks, and what reads or writes a
//! whole text through them. Begin at `Source` and `Sink`, and at `read_all` and `write_all`. Beside them stands
//! `Gate`, which is told of the turns of a round.
#![tactic(auto)]

mod adapters;
mod calls;
mod front;
mod gate;
mod meet;
mod memory;
mod room;
mod sink;
mod source;
mod sure;
#[cfg(test)]
mod tests;
mod whole;

pub use adapters::{Counting, ReadSource, WriteSink};
pub use gate::{AFTER, BEFORE, Gate, ShutGate};
pub use meet::MeetGate;
pub use memory::{MemorySink, MemorySource};
pub use sink::Sink;
pub use source::{Failed, Source};
pub use sure::{SureSink, SureSource};
pub use whole::{ReadEnd, Short, read_all, write_all};
