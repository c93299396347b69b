//! The queue.
ghost use Rattle.std.specs.Prelude.{◌≡◌, ◌+◌, ◌<◌, ◌≤◌, true, length, option_map, OnOk, OnErr};
ghost use Rattle.queue_core.specs.Queue.{apply, no_items, raised, is_above, rises, takes as may_take};
ghost use Rattle.queue_core.specs.Shown.{least_of, delivery_of, first_from, item_of};
ghost use Rattle.queue_core.specs.Seen.{places};

use crate::held::Held;
use crate::op::Op;
use crate::slots::{
    Slot, acknowledge, are_below, delivered, hand_all_back, hand_back, hand_out, least, place_from,
    take_off,
};
use ring_names::{Body, OutOfMemory, Position, Reason};
use std::alloc::Global;
use std::collections::VecDeque;
use std::marker::Model;

/// A queue: the messages that were published and not acknowledged, in the order of their positions. Each is
/// ready, or handed out and unacknowledged. Only a message that joins takes room, and room can be made ahead.
#[derive(Drop, Debug)]
pub struct Queue {
    next: u64,
    slots: VecDeque<Slot>,
}

impl Model for Queue {
    ghost use Rattle.std.specs.Prelude.{◌-◌};
    ghost use Rattle.std.proofs.Common.{deque_len, deque_capacity};
    ghost use Rattle.queue_core.specs.Kept.{IsQueue};
    ghost use Rattle.queue_core.specs.Seen.{QueueSeen};

    ghost Value = { QueueSeen };

    ghost view = { λ q. record {
      queue = record { next = q.next; items = q.slots.items };
      room = deque_capacity q.slots - deque_len q.slots;
    } };

    ghost invariant = { λ q. IsQueue (record { next = q.next; items = q.slots.items }) };
}

impl Queue {
    /// The queue without items, whose next position is 1. It takes no memory; the allocator is for what comes.
    pub fn new(alloc: Global) -> Queue
        ensures { result.queue ≡ no_items }
    {
        Queue {
            next: 1,
            slots: VecDeque::new(alloc),
        }
    }

    /// The position of the next message: above all that are held. It takes no memory.
    pub fn next(&self) -> Position
        ensures value { result.0 ≡ (self.now).queue.next }
        ensures above { is_above result.0 (self.now).queue.items ≡ true }
    {
        Position(self.next)
    }

    /// Lets the next position be at least this one. It takes no memory.
    pub fn raise_next(&mut self, to: Position)
        ensures queue { (self.new).queue ≡ raised to.0 (self.old).queue }
        ensures room { (self.new).room ≡ (self.old).room }
    {
        self.next = self.next.max(to.0);
    }

    /// The least ready position, or `QueueEmpty` where nothing is ready. It takes no memory, and passes over what is
    /// handed out in front of it.
    pub fn least(&self) -> Result<Position, Reason>
        ensures { result ≡ least_of (self.now).queue.items }
    {
        least(&self.slots)
    }

    /// Whether the item of that position is handed out: `UnknownPosition` where no item has it, and
    /// `NotDelivered` where the item is ready. It takes no memory.
    pub fn delivered(&self, at: Position) -> Result<(), Reason>
        ensures { result ≡ delivery_of at.0 (self.now).queue.items }
    {
        delivered(&self.slots, at)
    }

    /// The number of items, ready and handed out. It takes no memory.
    pub fn depth(&self) -> u64
        ensures value { result ≡ length (self.now).queue.items }
        ensures order { rises (self.now).queue.items ≡ true }
    {
        self.slots.len() as u64
    }

    /// The item of least position at or above `from`. It takes no memory.
    pub fn item_from(&self, from: Position) -> Option<Held<'_>>
        ensures { option_map item_of result ≡ first_from from.0 (self.now).queue.items }
    {
        let slot = self.slots.get(place_from(&self.slots, from.0))?;
        Some(slot.held())
    }

    /// Makes room for so many messages more; memory is wanted only where there is less room. Without it the queue
    /// stays as it was, with no less room than before.
    pub fn reserve(&mut self, more: usize) -> Result<(), OutOfMemory>
        ensures ok { OnOk result (more ≤ (self.new).room) }
        ensures full { OnErr result ((self.old).room < more) }
        ensures room { (self.old).room ≤ (self.new).room }
        ensures kept { (self.new).queue ≡ (self.old).queue }
    {
        self.slots.reserve(more)?;
        Ok(())
    }

    /// What a master did is done. Without memory the queue stays as it was; it is wanted for a copy of the operation,
    /// and for room where a message joins.
    pub fn apply(&mut self, op: &Op) -> Result<(), OutOfMemory>
        ensures ok { OnOk result ((self.new).queue ≡ apply op.now (self.old).queue) }
        ensures err { OnErr result ((self.new).queue ≡ (self.old).queue) }
        ensures room { (self.old).room ≤ (self.new).room + places op.now }
    {
        let own = op.copy()?;
        self.reserve(places_of(op))?;
        self.apply_reserved(own);
        Ok(())
    }

    /// The same with an operation of one's own, for which there is room. It takes no memory.
    pub fn apply_reserved(&mut self, op: Op)
        requires { places op ≤ (self.old).room }
        ensures queue { (self.new).queue ≡ apply op (self.old).queue }
        ensures room { (self.old).room ≤ (self.new).room + places op }
    {
        match op {
            Op::Publish { at, body } => self.publish(at, body),
            Op::Deliver { at } => hand_out(&mut self.slots, at),
            Op::Drop { at } => take_off(&mut self.slots, at),
            Op::Ack { at } => acknowledge(&mut self.slots, at),
            Op::Requeue { at } => hand_back(&mut self.slots, at),
            Op::Start { .. } => hand_all_back(&mut self.slots),
            Op::Depth { .. } | Op::SyncMark { .. } => {}
        }
    }

    // Whether a message of that position may join the end.
    fn takes(&self, at: Position) -> bool
        ensures { result ≡ may_take at.0 (self.now).queue.items }
    {
        at.0 < u64::MAX && are_below(&self.slots, at.0)
    }

    fn publish(&mut self, at: Position, body: Body)
        requires { 0 < (self.old).room }
        ensures queue { (self.new).queue ≡ apply (Op.Publish at body) (self.old).queue }
        ensures room { (self.old).room ≤ (self.new).room + 1 }
    {
        if !self.takes(at) {
            return;
        }
        self.slots.push_back_reserved(Slot::new(at, body));
        self.next = at.0 + 1;
    }
}

// For how many messages an operation wants room.
fn places_of(op: &Op) -> usize
    ensures { result ≡ places op.now }
{
    match op {
        Op::Publish { .. } => 1,
        Op::Deliver { .. } => 0,
        Op::Drop { .. } => 0,
        Op::Ack { .. } => 0,
        Op::Requeue { .. } => 0,
        Op::Depth { .. } => 0,
        Op::Start { .. } => 0,
        Op::SyncMark { .. } => 0,
    }
}
