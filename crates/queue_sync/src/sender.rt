//! The sender's side of a copy.
ghost use Rattle.std.specs.Prelude.{◌≡◌, ◌+◌, ◌<◌, ◌++◌, ◌∷◌, [], List, IfOk, length, map, take};
ghost use Rattle.queue_core.specs.Queue.{is_above, rises};
ghost use Rattle.queue_core.specs.Shown.{first_from};
ghost use Rattle.queue_sync.specs.Copy.{item_of};

use crate::load::{CopyItem, CopyLoad, copy_of};
use credit_flow::CreditOut;
use queue_core::Queue;
use ring_names::{CreditSpec, MemberId, OutOfMemory, Position};
use std::alloc::Global;
use std::collections::VecDeque;
use std::marker::Model;

/// What a master still has to put on its copy to a mirror, and the credit for it.
#[derive(Drop)]
pub struct SyncOut {
    target: MemberId,
    items: VecDeque<CopyItem>,
    is_done: bool,
    credit: CreditOut,
}

impl Model for SyncOut {
    ghost use Rattle.std.specs.Prelude.{[], cond, map};
    ghost use Rattle.queue_sync.specs.Seen.{Sending};
    ghost use Rattle.queue_sync.specs.Copy.{item_of, loads_of};

    ghost Value = { Sending };

    ghost view = { λ s. record {
      target = s.target.0;
      to_put = cond s.is_done [] (loads_of (map item_of s.items.items));
      credit = s.credit;
    } };
}

impl SyncOut {
    ghost use Rattle.std.specs.Prelude.{◌≡◌, IfOk, option_map, drop, slice_get};
    ghost use Rattle.credit_flow.specs.Credit.{full_credit, is_blocked as blocked_is};
    ghost use Rattle.queue_sync.specs.Copy.{is_all_put};
    ghost use Rattle.queue_sync.specs.Copy.{loads_of, load_of};
    ghost use Rattle.std.specs.Borrow.{sem};
    ghost use Rattle.queue_sync.specs.Lending.{LendsCredit};

    /// A copy of this queue for that member. Want of memory leaves none.
    pub fn begin(
        alloc: Global,
        queue: &Queue,
        target: MemberId,
        spec: CreditSpec,
    ) -> Result<SyncOut, OutOfMemory>
        ensures { IfOk result (λ s. s ≡ record {
          target = target.0;
          to_put = loads_of (queue.now).queue.items;
          credit = full_credit spec.initial spec.more;
        }) }
    {
        Ok(SyncOut {
            target,
            items: items_of(alloc, queue)?,
            is_done: false,
            credit: CreditOut::new(spec),
        })
    }

    /// The member that is given the copy.
    pub fn target(&self) -> MemberId
        ensures { result.0 ≡ (self.now).target }
    {
        self.target
    }

    /// Whether all was put.
    pub fn is_done(&self) -> bool
        ensures { result ≡ is_all_put (self.now).to_put }
    {
        self.is_done
    }

    /// Whether there is no credit for what is to be put next.
    pub fn is_blocked(&self) -> bool
        ensures { result ≡ blocked_is (self.now).credit }
    {
        self.credit.blocked()
    }

    /// The credit for what is put. It takes no memory.
    pub fn credit(&mut self) -> &mut CreditOut
        ensures* writes_back { sem 𝓛 (LendsCredit self.entry result) }
        ensures value { result.now ≡ (self.old).credit }
    {
        &mut self.credit
    }

    /// What is to be put next: an item, those of lower positions first, then that this is all; then nothing. It takes no
    /// memory.
    pub fn next(&mut self) -> Option<CopyLoad>
        ensures next { option_map load_of result ≡ slice_get (self.old).to_put 0 }
        ensures later { self.new ≡ record self.old { to_put = drop 1 (self.old).to_put } }
    {
        if self.is_done {
            return None;
        }
        let Some(item) = self.items.pop_front() else {
            self.is_done = true;
            return Some(CopyLoad::Done);
        };
        Some(CopyLoad::Item(item))
    }
}

/// The items of a queue, copied, those of lower positions first.
fn items_of(alloc: Global, queue: &Queue) -> Result<VecDeque<CopyItem>, OutOfMemory>
    ensures { IfOk result (λ items. map item_of items.items ≡ (queue.now).queue.items) }
{
    let mut items = VecDeque::new(alloc);
    let mut from = Position(0);
    queue.next();
    for _place in 0..queue.depth() {
        let Some(held) = queue.item_from(from) else {
            unreachable!()
        };
        items.push_back(copy_of(held)?)?;
        from = Position(held.at.0.saturating_add(1));
    }
    Ok(items)
}
