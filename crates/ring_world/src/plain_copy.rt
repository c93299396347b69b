//! A copy of the plain machine.
ghost use Rattle.std.specs.Prelude.{◌≡◌, ◌+◌, ◌≤◌, ◌∷◌, ◌&&◌, List, true, false, not, option_map, IfOk, OnOk, OnErr};
ghost use Rattle.queue_core.specs.Queue.{Item};
ghost use Rattle.queue_sync.specs.Copy.{Load, OneItem, load_of};
ghost use Rattle.ring_rules.specs.Refusal.{is_empty as empty_is};
ghost use Rattle.ring_copies.specs.Copies.{is_put_by as puts_on, is_taken_by as takes_from, copy_put, copy_gained};
ghost use Rattle.ring_copies.specs.Copies.{load_taken, item_taken, done_taken, dropped, looked_one};
ghost use Rattle.ring_copies.specs.Events.{is_done_next as done_is_next};
ghost use Rattle.credit_flow.specs.Credit.{is_blocked as blocked_is};
ghost use Rattle.ring_world.specs.Copied.{copy_of, copy_new, room_of, judged_copy, followed_copy};

use credit_flow::CreditIn;
use group_view::View;
use queue_core::Queue;
use queue_sync::{CopyItem, CopyLoad, SyncOut};
use ring_names::{CreditSpec, MemberId, OutOfMemory};
use std::alloc::Global;

/// A copy of the queue from a master to a mirror: what is still to be put, what is on the way, what the mirror keeps aside,
/// and the grants under way back. It stays in the list when it is over.
#[derive(Drop)]
pub struct PlainCopy {
    pub(crate) sender: u32,
    pub(crate) receiver: u32,
    pub(crate) opened: u32,
    pub(crate) mark: u64,
    pub(crate) out: SyncOut,
    pub(crate) loads: Vec<CopyLoad>,
    pub(crate) ended: bool,
    pub(crate) aside: Vec<CopyItem>,
    pub(crate) incoming: CreditIn,
    pub(crate) grants: Vec<u32>,
    pub(crate) over: bool,
}

impl PlainCopy {
    /// A copy of a queue opens in a version behind the message of this number in its sender's log, with its whole credit.
    pub(crate) fn begin(
        alloc: Global,
        credit: CreditSpec,
        queue: &Queue,
        sender: u32,
        receiver: u32,
        opened: u32,
        mark: u64,
    ) -> Result<PlainCopy, OutOfMemory>
        ensures copy { IfOk result (λ copy. copy_of copy
            ≡ copy_new credit sender receiver opened mark (queue.now).queue.items) }
        ensures room { IfOk result (λ copy. 3 ≤ room_of copy) }
    {
        let out = SyncOut::begin(alloc, queue, MemberId(receiver), credit)?;
        let mut grants = Vec::new(alloc);
        grants.reserve(3)?;
        Ok(PlainCopy {
            sender,
            receiver,
            opened,
            mark,
            out,
            loads: Vec::new(alloc),
            ended: false,
            aside: Vec::new(alloc),
            incoming: CreditIn::new(credit),
            grants,
            over: false,
        })
    }

    /// Whether the member of an id has something to put on it.
    pub(crate) fn is_put_by(&self, id: u32) -> bool
        ensures { result ≡ puts_on id (copy_of self.now) }
    {
        self.sender == id && !self.over && !self.out.is_done()
    }

    /// Whether it takes from it.
    pub(crate) fn is_taken_by(&self, id: u32) -> bool
        ensures { result ≡ takes_from id (copy_of self.now) }
    {
        self.receiver == id && !self.over
    }

    /// Whether the sender has no credit left.
    pub(crate) fn is_blocked(&self) -> bool
        ensures { result ≡ blocked_is (copy_of self.now).flow.sender }
    {
        self.out.is_blocked()
    }

    /// Whether no grant is under way.
    pub(crate) fn has_no_grant(&self) -> bool
        ensures { result ≡ empty_is (copy_of self.now).flow.grants }
    {
        self.grants.is_empty()
    }

    /// Whether there is neither a load nor an end.
    pub(crate) fn holds_nothing(&self) -> bool
        ensures { result ≡ (empty_is (copy_of self.now).loads && not (copy_of self.now).ended) }
    {
        self.loads.is_empty() && !self.ended
    }

    /// Whether there is a load.
    pub(crate) fn has_load(&self) -> bool
        ensures { result ≡ not (empty_is (copy_of self.now).loads) }
    {
        !self.loads.is_empty()
    }

    /// Whether the last load is next.
    pub(crate) fn is_done_next(&self) -> bool
        ensures { result ≡ done_is_next (copy_of self.now).loads }
    {
        match self.loads.first() {
            Some(CopyLoad::Done) => true,
            _ => false,
        }
    }

    /// The next load goes on it, and takes one credit.
    pub(crate) fn put(&mut self) -> Result<(), OutOfMemory>
        requires some { empty_is (copy_of self.old).to_put ≡ false }
        requires credit { blocked_is (copy_of self.old).flow.sender ≡ false }
        ensures ok { OnOk result (copy_of self.new ≡ copy_put (copy_of self.old)) }
        ensures err { OnErr result (copy_of self.new ≡ copy_of self.old) }
        ensures room { room_of self.new ≡ room_of self.old }
    {
        self.loads.reserve(1)?;
        let Some(load) = self.out.next() else {
            unreachable!()
        };
        self.loads.push_reserved(load);
        self.out.credit().send();
        Ok(())
    }

    /// The oldest grant becomes credit.
    pub(crate) fn gain(&mut self)
        requires { empty_is (copy_of self.old).flow.grants ≡ false }
        ensures gained { copy_of self.new ≡ copy_gained (copy_of self.old) }
        ensures room { room_of self.old ≤ room_of self.new }
    {
        let grant = self.grants.remove(0);
        self.out.credit().gain(grant);
    }

    /// A receiver that is blocked holds its grants back; of one that isn't, all that were held go under way as one.
    fn judge(&mut self, blocked: bool)
        requires { 1 ≤ room_of self.old }
        ensures judged { copy_of self.new ≡ judged_copy blocked (copy_of self.old) }
        ensures aside { self.new.aside ≡ self.old.aside }
        ensures room { room_of self.old ≤ room_of self.new + 1 }
    {
        if blocked {
            self.incoming.hold();
            return;
        }
        let sum = self.incoming.release();
        if sum > 0 {
            self.grants.push_reserved(sum);
        }
    }

    /// The oldest load is taken, and the receiver counts it: it may owe a grant, and release those that it held.
    fn count(&mut self, blocked: bool) -> CopyLoad
        requires some { empty_is (copy_of self.old).loads ≡ false }
        requires room { 2 ≤ room_of self.old }
        ensures load { load_of result ∷ (copy_of self.new).loads ≡ (copy_of self.old).loads }
        ensures taken { copy_of self.new ≡ load_taken blocked (copy_of self.old) }
        ensures aside { self.new.aside ≡ self.old.aside }
        ensures room { room_of self.old ≤ room_of self.new + 2 }
    {
        self.judge(blocked);
        let load = self.loads.remove(0);
        if let Some(grant) = self.incoming.took() {
            self.grants.push_reserved(grant);
        }
        load
    }

    /// The oldest load is an item, which is kept aside.
    pub(crate) fn take_item(&mut self, blocked: bool) -> Result<(), OutOfMemory>
        requires some { empty_is (copy_of self.old).loads ≡ false }
        requires item { done_is_next (copy_of self.old).loads ≡ false }
        requires room { 2 ≤ room_of self.old }
        ensures ok { (i : Item) (ls : List Load) → (copy_of self.old).loads ≡ OneItem i ∷ ls
            → OnOk result (copy_of self.new ≡ item_taken blocked i (copy_of self.old)) }
        ensures err { OnErr result (copy_of self.new ≡ copy_of self.old) }
        ensures room { room_of self.old ≤ room_of self.new + 2 }
    {
        self.aside.reserve(1)?;
        match self.count(blocked) {
            CopyLoad::Item(item) => self.aside.push_reserved(item),
            CopyLoad::Done => unreachable!(),
        }
        Ok(())
    }

    /// The oldest load is the last, and it is over.
    pub(crate) fn take_done(&mut self, blocked: bool)
        requires done { done_is_next (copy_of self.old).loads ≡ true }
        requires room { 2 ≤ room_of self.old }
        ensures done { copy_of self.new ≡ done_taken blocked (copy_of self.old) }
        ensures room { room_of self.old ≤ room_of self.new + 2 }
    {
        self.count(blocked);
        self.close();
    }

    /// It is over, and what it brought is dropped.
    pub(crate) fn close(&mut self)
        ensures over { copy_of self.new ≡ dropped (copy_of self.old) }
        ensures room { room_of self.new ≡ room_of self.old }
    {
        self.aside.clear();
        self.over = true;
    }

    /// The member of an id has read a view.
    fn look(&mut self, view: &View, id: u32)
        ensures looked { copy_of self.new ≡ looked_one view.now id (copy_of self.old) }
        ensures room { room_of self.new ≡ room_of self.old }
    {
        let sender = MemberId(self.sender);
        if self.is_taken_by(id) && view.has_entry(sender) && view.is_erased(sender) {
            self.close();
            return;
        }
        if self.is_put_by(id) && !view.is_live(MemberId(self.receiver)) {
            self.over = true;
        }
    }

    /// The member of an id has done something: it may have stopped, or read a view; and if it isn't blocked the grants go
    /// under way that it held back.
    pub(crate) fn follow(&mut self, stops: bool, view: Option<&View>, blocked: bool, id: u32)
        requires { 1 ≤ room_of self.old }
        ensures { copy_of self.new ≡ followed_copy stops (option_map (λ v. v.now) view.entry) blocked id (copy_of self.old) }
    {
        if stops && self.is_put_by(id) {
            self.ended = true;
        }
        if let Some(view) = view {
            self.look(view, id);
        }
        if !blocked && self.receiver == id {
            self.judge(false);
        }
    }

    /// Makes room for the grants of one event.
    pub(crate) fn make_room(&mut self) -> Result<(), OutOfMemory>
        ensures same { copy_of self.new ≡ copy_of self.old }
        ensures room { OnOk result (3 ≤ room_of self.new) }
    {
        self.grants.reserve(3)?;
        Ok(())
    }
}
