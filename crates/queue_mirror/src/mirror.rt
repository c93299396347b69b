//! A mirror.
ghost use Rattle.std.specs.Prelude.{◌≡◌, ◌+◌, ◌<◌, ◌≤◌, ◌↔◌, Some, IsTrue, OnOk, OnErr};
ghost use Rattle.std.specs.List.{list_any};
ghost use Rattle.queue_core.specs.Queue.{is_at};
ghost use Rattle.queue_core.specs.Seen.{places};
ghost use Rattle.queue_mirror.specs.Mirror.{founding, joining, copy_of, apply_op, without};
ghost use Rattle.queue_mirror.specs.Mirror.{missing_after as missing_then};

use queue_core::{Op, Queue};
use ring_names::{OutOfMemory, Position, Reason};
use std::alloc::Global;
use std::marker::Model;

/// A member's mirror of the master's queue: what was published since the member joined, or all once it was given a
/// copy; and how many items it lacks, where that is known. Only a message that joins takes room, and room can be made
/// ahead.
#[derive(Drop, Debug)]
pub struct Mirror {
    queue: Queue,
    missing: Option<u64>,
}

impl Model for Mirror {
    ghost use Rattle.queue_mirror.specs.Seen.{MirrorSeen};

    ghost Value = { MirrorSeen };

    ghost view = { λ m. record {
      mirror = record { queue = m.queue.queue; missing = m.missing };
      room = m.queue.room;
    } };
}

impl Mirror {
    /// The mirror of a member that is there from the opening: nothing is missing. It takes no memory; the allocator
    /// is for what comes.
    pub fn founding(alloc: Global) -> Mirror
        ensures { result.mirror ≡ founding }
    {
        Mirror {
            queue: Queue::new(alloc),
            missing: Some(0),
        }
    }

    /// The mirror of a member that joins: what is missing isn't known. It takes no memory; the allocator is for
    /// what comes.
    pub fn joining(alloc: Global) -> Mirror
        ensures { result.mirror ≡ joining }
    {
        Mirror {
            queue: Queue::new(alloc),
            missing: None,
        }
    }

    /// Makes room for so many messages more; memory is wanted only where there is less room. Without it the mirror
    /// stays as it was, with no less room than before.
    pub fn reserve(&mut self, more: usize) -> Result<(), OutOfMemory>
        ensures ok { OnOk result (more ≤ (self.new).room) }
        ensures full { OnErr result ((self.old).room < more) }
        ensures room { (self.old).room ≤ (self.new).room }
        ensures kept { (self.new).mirror ≡ (self.old).mirror }
    {
        self.queue.reserve(more)
    }

    /// An operation of the master is done. One that takes an item off which the mirror doesn't hold lets the number
    /// of missing ones fall, where it is known; the master's number of items makes it known. Without memory the
    /// mirror stays as it was; it is wanted for a copy of the operation, and for room where a message joins.
    pub fn apply_op(&mut self, op: &Op) -> Result<(), OutOfMemory>
        ensures ok { OnOk result ((self.new).mirror ≡ apply_op (self.old).mirror op.now) }
        ensures err { OnErr result ((self.new).mirror ≡ (self.old).mirror) }
        ensures room { (self.old).room ≤ (self.new).room + places op.now }
    {
        let missing = self.missing_after(op);
        self.queue.apply(op)?;
        self.missing = missing;
        Ok(())
    }

    /// The same with an operation of one's own, for which there is room. It takes no memory.
    pub fn apply_reserved(&mut self, op: Op)
        requires { places op ≤ (self.old).room }
        ensures mirror { (self.new).mirror ≡ apply_op (self.old).mirror op }
        ensures room { (self.old).room ≤ (self.new).room + places op }
    {
        self.missing = self.missing_after(&op);
        self.queue.apply_reserved(op);
    }

    /// How many items of the master's queue the mirror lacks; `None` exactly on one that joined, before the first
    /// operation that tells the number of all, and before a copy. It takes no memory.
    pub fn missing(&self) -> Option<u64>
        ensures { result ≡ (self.now).mirror.missing }
    {
        self.missing
    }

    /// Whether the mirror is known to lack nothing. It takes no memory.
    pub fn is_synced(&self) -> bool
        ensures { IsTrue result ↔ ((self.now).mirror.missing ≡ Some 0) }
    {
        match self.missing {
            Some(missing) => missing == 0,
            None => false,
        }
    }

    /// What the mirror holds. It takes no memory.
    pub fn queue(&self) -> &Queue
        ensures queue { result.now.queue ≡ (self.now).mirror.queue }
        ensures room { result.now.room ≡ (self.now).room }
    {
        &self.queue
    }

    /// A copy of the master's queue takes the place of what the mirror held, and nothing is missing. It takes no
    /// memory.
    pub fn copied(&mut self, queue: Queue)
        ensures mirror { (self.new).mirror ≡ copy_of queue.queue }
        ensures room { (self.new).room ≡ queue.room }
    {
        self.queue = queue;
        self.missing = Some(0);
    }

    // What is missing once the operation is done.
    fn missing_after(&self, op: &Op) -> Option<u64>
        ensures { result ≡ missing_then op.now (self.now).mirror.queue.items (self.now).mirror.missing }
    {
        match op {
            Op::Drop { at } => self.without(*at),
            Op::Ack { at } => self.without(*at),
            Op::Depth { depth } => Some(depth.saturating_sub(self.queue.depth())),
            Op::Start { depth } => Some(depth.saturating_sub(self.queue.depth())),
            Op::Publish { .. } => self.missing,
            Op::Deliver { .. } => self.missing,
            Op::Requeue { .. } => self.missing,
            Op::SyncMark { .. } => self.missing,
        }
    }

    // What is missing once the item of that position is gone.
    fn without(&self, at: Position) -> Option<u64>
        ensures { result ≡ without (list_any (is_at at.0) (self.now).mirror.queue.items) (self.now).mirror.missing }
    {
        let missing = self.missing?;
        if self.holds(at) {
            return Some(missing);
        }
        Some(missing.saturating_sub(1))
    }

    // Whether the mirror holds an item of that position.
    fn holds(&self, at: Position) -> bool
        ensures { result ≡ list_any (is_at at.0) (self.now).mirror.queue.items }
    {
        match self.queue.delivered(at) {
            Err(Reason::UnknownPosition) => false,
            _ => true,
        }
    }
}
