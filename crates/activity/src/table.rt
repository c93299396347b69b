//! What is kept of one origin.
ghost use Rattle.std.specs.Prelude.{◌≡◌, ◌-◌, ◌+◌, ◌≤◌, ◌^◌, ◌++◌, ◌∷◌, ◌<◌, [], Bool, true, cond, Some, drop, length};
ghost use Rattle.pending_store.specs.Store.{StartsAt, got_of as store_got};
ghost use Rattle.activity.specs.Plan.{change_of, changed, arrivals};
ghost use Rattle.activity.specs.Shown.{kept_in};

use crate::change::Change;
use crate::packet::Line;
use pending_store::Store;
use queue_core::Message;
use std::alloc::Global;

/// What is kept of an origin: its messages that were got and aren't forgotten, and, where the member
/// answers for the origin, up to which number their acknowledgement has come round; and behind which number the
/// member receives.
#[derive(Drop, Debug)]
pub struct Table {
    /// The messages.
    pub store: Store<Message>,
    /// The number of the last message whose acknowledgement has come round; 0 until the member answers for the origin.
    pub retired: u64,
    /// The number behind which the member receives: that of its first packet, where it joined, else 0.
    pub base: u64,
}

impl Table {
    /// Nothing is kept, messages go on behind a number, and the member receives behind another.
    pub(crate) fn starting(alloc: Global, at: u64, base: u64) -> Table
        requires { at ≤ 2 ^ 63 }
        ensures store { StartsAt at result.store }
        ensures retired { result.retired ≡ 0 }
        ensures base { result.base ≡ base }
    {
        Table {
            store: Store::starting(alloc, at),
            retired: 0,
            base,
        }
    }

    /// What a line changes here: its messages are moved, none is copied. It takes no memory: there is room.
    pub(crate) fn accept(&mut self, line: Line, change: Change)
        requires planned { (own : Bool) × (change_of own (kept_in self.old) line ≡ Some change) }
        requires room { arrivals change ≤ (self.old).store.spare }
        ensures { kept_in self.new ≡ changed (kept_in self.old) line change }
    {
        match change {
            Change::Receive { from, forgot, .. } => {
                let behind = from - line.lo;
                push_behind(&mut self.store, line.messages.into_vec(), behind as usize);
                self.store.forget_to(forgot);
            }
            Change::CameRound {
                forgot: returned,
                retired,
                ..
            } => {
                self.store.forget_to(returned);
                self.retired = retired;
            }
        }
    }
}

/// A message joins the store, or is dropped.
fn push_if(store: &mut Store<Message>, message: Message, joins: bool)
    requires room { joins ≡ true → 0 < (store.old).spare }
    requires few { joins ≡ true → store_got store.old < 2 ^ 63 }
    ensures forgot { (store.new).forgot ≡ (store.old).forgot }
    ensures messages { (store.new).messages ≡ (store.old).messages ++ cond joins (message ∷ []) [] }
    ensures spare { (store.old).spare ≤ (store.new).spare + cond joins 1 0 }
{
    if joins {
        store.push(message);
    }
}

/// The messages behind the first `n` join the store.
fn push_behind(store: &mut Store<Message>, messages: Vec<Message>, n: usize)
    requires room { length messages.items - n ≤ (store.old).spare }
    requires few { store_got store.old + (length messages.items - n) ≤ 2 ^ 63 }
    ensures forgot { (store.new).forgot ≡ (store.old).forgot }
    ensures messages { (store.new).messages ≡ (store.old).messages ++ drop n messages.items }
{
    let mut place = 0;
    for message in messages {
        push_if(store, message, place >= n);
        place += 1;
    }
}
