//! The receiver's side of a copy.
ghost use Rattle.std.specs.Prelude.{◌≡◌, ◌≤◌, ◌++◌, ◌∷◌, [], List, length, true, cond};
ghost use Rattle.queue_core.specs.declared.op.Op.{Op as AnOp};
ghost use Rattle.queue_core.specs.Queue.{takes};
ghost use Rattle.queue_sync.specs.Copy.{apply_all, item_of, kept_aside};

use crate::load::CopyItem;
use credit_flow::CreditIn;
use queue_core::{CopyState, Op, Queue};
use queue_mirror::Mirror;
use ring_names::{CreditSpec, OutOfMemory, Position, Reason};
use std::alloc::Global;
use std::marker::Model;
use std::mem;

/// Why a copy doesn't take the place of what a mirror held.
#[derive(Clone, Copy, PartialEq, Eq, Debug)]
pub enum SyncFault {
    /// The copy's mark hasn't been taken yet.
    Refused(Reason),
    OutOfMemory,
}

/// What a mirror's member has taken of a copy, and of the master's operations since the mark of that copy.
#[derive(Drop)]
pub struct SyncIn {
    alloc: Global,
    aside: Queue,
    marked: bool,
    since: Vec<Op>,
    credit: CreditIn,
}

impl Model for SyncIn {
    ghost use Rattle.queue_sync.specs.Seen.{Taking};

    ghost Value = { Taking };

    ghost view = { λ s. record {
      aside = s.aside.queue;
      marked = s.marked;
      since = s.since.items;
      credit = s.credit;
    } };
}

impl SyncIn {
    ghost use Rattle.std.specs.Prelude.{◌≡◌, ◌++◌, ◌∷◌, [], true, false, Err, OnOk, OnErr, IfErr};
    ghost use Rattle.ring_names.specs.declared.reason.Reason.{Reason};
    ghost use Rattle.credit_flow.specs.Credit.{none_taken};
    ghost use Rattle.queue_core.specs.Queue.{no_items};
    ghost use Rattle.queue_sync.specs.Seen.{begun};
    ghost use Rattle.queue_sync.specs.Copy.{item_of, kept_aside, copied_mirror};

    /// Nothing has been taken yet. It takes no memory; the allocator is for what comes.
    pub fn begin(alloc: Global, spec: CreditSpec) -> SyncIn
        ensures { result ≡ begun (none_taken spec.initial spec.more) }
    {
        SyncIn {
            alloc,
            aside: Queue::new(alloc),
            marked: false,
            since: Vec::new(alloc),
            credit: CreditIn::new(spec),
        }
    }

    /// An item has come and is kept aside. One that isn't above all before it is dropped. Without memory it comes back, and
    /// nothing has changed.
    pub fn item(&mut self, item: CopyItem) -> Result<(), (CopyItem, OutOfMemory)>
        ensures ok { OnOk result (self.new ≡ record self.old { aside = kept_aside (item_of item) (self.old).aside }) }
        ensures err { IfErr result (λ back. (back.0 ≡ item) × (self.new ≡ self.old)) }
    {
        match self.aside.reserve(1) {
            Ok(()) => {
                keep_aside(&mut self.aside, item);
                Ok(())
            }
            Err(OutOfMemory) => Err((item, OutOfMemory)),
        }
    }

    /// The mark of the copy was taken: what the master publishes from here on isn't in its items. It takes no memory.
    pub fn saw_mark(&mut self)
        ensures { self.new ≡ record self.old { marked = true } }
    {
        self.marked = true;
    }

    /// An operation of the master behind the mark was taken. Without memory nothing has changed.
    pub fn since_mark(&mut self, op: &Op) -> Result<(), OutOfMemory>
        ensures ok { OnOk result (self.new ≡ record self.old { since = (self.old).since ++ op.now ∷ [] }) }
        ensures err { OnErr result (self.new ≡ self.old) }
    {
        let copy = op.copy()?;
        self.since.push(copy)?;
        Ok(())
    }

    /// All has come: the items, with the operations since the mark done, take the place of what the mirror held, which lacks
    /// nothing then. Where the mark wasn't taken it is refused, and there and without memory nothing has changed.
    pub fn done(&mut self, mirror: &mut Mirror) -> Result<(), SyncFault>
        ensures copied { OnOk result ((mirror.new).mirror
            ≡ copied_mirror (mirror.old).mirror (self.old).aside (self.old).since) }
        ensures anew { OnOk result (self.new ≡ begun (self.old).credit) }
        ensures marked { OnOk result ((self.old).marked ≡ true) }
        ensures refused { (self.old).marked ≡ false → result ≡ Err (SyncFault.Refused Reason.MarkNotSeen) }
        ensures memory { (self.old).marked ≡ true → IfErr result (λ fault. fault ≡ SyncFault.OutOfMemory) }
        ensures same { OnErr result ((self.new ≡ self.old) × (mirror.new ≡ mirror.old)) }
    {
        if !self.marked {
            return Err(SyncFault::Refused(Reason::MarkNotSeen));
        }
        if self.aside.reserve(self.since.len()).is_err() {
            return Err(SyncFault::OutOfMemory);
        }
        let mut queue = mem::replace(&mut self.aside, Queue::new(self.alloc));
        let since = mem::replace(&mut self.since, Vec::new(self.alloc));
        self.marked = false;
        let behind = queue.next();
        take_all(&mut queue, since);
        queue.raise_next(behind);
        queue.raise_next(mirror.queue().next());
        mirror.copied(queue);
        Ok(())
    }
}

/// Whether an item of that position stands above all that are kept aside.
fn is_behind_all(aside: &Queue, at: Position) -> bool
    ensures { result ≡ takes at.0 (aside.now).queue.items }
{
    match aside.item_from(at) {
        Some(_) => false,
        None => at.0 < u64::MAX,
    }
}

/// An item is kept aside, where it stands above those that are.
fn keep_aside(aside: &mut Queue, item: CopyItem)
    requires { 1 ≤ (aside.old).room }
    ensures { (aside.new).queue ≡ kept_aside (item_of item) (aside.old).queue }
{
    let CopyItem { at, body, state } = item;
    if !is_behind_all(aside, at) {
        return;
    }
    aside.apply_reserved(Op::Publish { at, body });
    match state {
        CopyState::Ready => {}
        CopyState::Unacked => aside.apply_reserved(Op::Deliver { at }),
        CopyState::Again => {
            aside.apply_reserved(Op::Deliver { at });
            aside.apply_reserved(Op::Requeue { at });
        }
    }
}

/// A queue with room for them does these operations.
fn take_all(queue: &mut Queue, since: Vec<Op>)
    requires { length since.items ≤ (queue.old).room }
    ensures { (queue.new).queue ≡ apply_all since.items (queue.old).queue }
{
    for op in since {
        queue.apply_reserved(op);
    }
}
