//! The operations of a queue.
ghost use Rattle.std.specs.Prelude.{◌≡◌, IfOk};

use ring_names::{Body, MemberId, OutOfMemory, Position};

/// What a master does to its queue, and its mirrors after it.
#[derive(Drop, Debug)]
pub enum Op {
    /// A message joins the end: it is ready.
    Publish { at: Position, body: Body },
    /// The ready item of that position is handed out.
    Deliver { at: Position },
    /// The ready item of that position is taken off for good: it is handed out and counts as acknowledged.
    Drop { at: Position },
    /// The item of that position, which was handed out, is acknowledged and leaves.
    Ack { at: Position },
    /// The item of that position, which was handed out, is ready again.
    Requeue { at: Position },
    /// The number of items, ready and handed out, so that a mirror knows how many it lacks.
    Depth { depth: u64 },
    /// A new master begins: all that was handed out is ready again, and the number of items is this.
    Start { depth: u64 },
    /// A copy of the queue as it stands here goes to that member.
    SyncMark { target: MemberId },
}

impl Op {
    /// An equal operation.
    pub fn copy(&self) -> Result<Op, OutOfMemory>
        ensures { IfOk result (λ op. op ≡ self.now) }
    {
        Ok(match self {
            Op::Publish { at, body } => Op::Publish {
                at: *at,
                body: body.copy()?,
            },
            Op::Deliver { at } => Op::Deliver { at: *at },
            Op::Drop { at } => Op::Drop { at: *at },
            Op::Ack { at } => Op::Ack { at: *at },
            Op::Requeue { at } => Op::Requeue { at: *at },
            Op::Depth { depth } => Op::Depth { depth: *depth },
            Op::Start { depth } => Op::Start { depth: *depth },
            Op::SyncMark { target } => Op::SyncMark { target: *target },
        })
    }
}
