//! The store.
ghost use Rattle.std.specs.Prelude.{◌≡◌, ◌+◌, ◌-◌, ◌^◌, ◌<◌, ◌≤◌, IfOk, OnOk, OnErr, drop, take, slice_index_or};
ghost use Rattle.std.proofs.Common.{deque_len, deque_capacity};
ghost use Rattle.pending_store.specs.Store.{got_of, kept_between, StartsAt, KeepsAll, Gains, ForgetsTo};

use crate::copied::Copied;
use ring_names::OutOfMemory;
use std::alloc::Global;
use std::collections::VecDeque;
use std::marker::Model;

/// The messages of one origin's log that were got and are not forgotten: those numbered `forgot` + 1 to
/// `got`, the log's first message being number 1. Neither number exceeds 2 to the 63.
#[derive(Drop, Debug)]
pub struct Store<T> {
    forgot: u64,
    messages: VecDeque<T>,
}

impl<T> Model for Store<T> {
    ghost use Rattle.std.specs.Prelude.{◌+◌, ◌-◌, ◌^◌, ◌≤◌};
    ghost use Rattle.std.proofs.Common.{deque_len, deque_capacity};
    ghost use Rattle.pending_store.specs.Store.{Pending};

    ghost Value = { Pending T };

    ghost view = { λ s. record {
      forgot = s.forgot;
      messages = s.messages.items;
      spare = deque_capacity s.messages - deque_len s.messages;
    } };

    ghost invariant = { λ s. s.forgot + deque_len s.messages ≤ 2 ^ 63 };
}

impl<T> Store<T> {
    /// A store that keeps nothing, of an origin of which `at` messages were got and forgotten. It takes no
    /// memory; the allocator is for what the store reserves.
    pub fn starting(alloc: Global, at: u64) -> Store<T>
        requires { at ≤ 2 ^ 63 }
        ensures { StartsAt at result }
    {
        Store {
            forgot: at,
            messages: VecDeque::new(alloc),
        }
    }

    /// The number of the last message that was got.
    pub fn got(&self) -> u64
        ensures value { result ≡ got_of self.now }
        ensures bound { got_of self.now ≤ 2 ^ 63 }
    {
        self.forgot + self.messages.len() as u64
    }

    /// The number of the last message that was forgotten.
    pub fn forgot(&self) -> u64
        ensures { result ≡ (self.now).forgot }
    {
        self.forgot
    }

    /// For how many more messages there is room without further memory.
    pub fn spare(&self) -> u64
        ensures { result ≡ (self.now).spare }
    {
        (self.messages.capacity() - self.messages.len()) as u64
    }

    /// Makes room for `n` messages more; memory is wanted only where there is less room. Without it the
    /// store keeps what it kept, and no less room than before.
    pub fn reserve(&mut self, n: u64) -> Result<(), OutOfMemory>
        ensures ok { OnOk result (n ≤ (self.new).spare) }
        ensures full { OnErr result ((self.old).spare < n) }
        ensures spare { (self.old).spare ≤ (self.new).spare }
        ensures kept { KeepsAll self.old self.new }
    {
        self.messages.reserve(n as usize)?;
        Ok(())
    }

    /// The next message of the log is got. It takes no memory: room was reserved.
    pub fn push(&mut self, message: T)
        requires room { 0 < (self.old).spare }
        requires below { got_of self.old < 2 ^ 63 }
        ensures gains { Gains self.old message self.new }
        ensures spare { (self.old).spare ≤ (self.new).spare + 1 }
    {
        self.messages.push_back_reserved(message);
    }

    /// The message of a number.
    pub fn message(&self, number: u64) -> &T
        requires forgot { (self.now).forgot < number }
        requires got { number ≤ got_of self.now }
        ensures { result.now ≡ slice_index_or (self.now).messages (number - (self.now).forgot - 1) result.now }
    {
        &self.messages[(number - self.forgot - 1) as usize]
    }
}

impl<T: Drop> Store<T> {
    /// Forgets the messages up to number `to`: each is dropped at once, with all that it holds. It takes no
    /// memory.
    pub fn forget_to(&mut self, to: u64)
        requires forgot { (self.old).forgot ≤ to }
        requires got { to ≤ got_of self.old }
        ensures forgets { ForgetsTo self.old to self.new }
        ensures spare { (self.old).spare ≤ (self.new).spare }
    {
        drop_first(&mut self.messages, to - self.forgot);
        self.forgot = to;
    }
}

impl<T: Copied + Drop> Store<T> {
    /// Copies of the messages numbered `from` + 1 to `to`, in their order.
    pub fn slice(&self, from: u64, to: u64) -> Result<Vec<T>, OutOfMemory>
        requires forgot { (self.now).forgot ≤ from }
        requires order { from ≤ to }
        requires got { to ≤ got_of self.now }
        ensures { IfOk result (λ copies. copies.items ≡ kept_between from to self.now) }
    {
        let first = from - self.forgot;
        let end = to - self.forgot;
        copied_range(&self.messages, first as usize, end as usize)
    }
}

// Drops the first messages, one after another.
fn drop_first<T: Drop>(messages: &mut VecDeque<T>, n: u64)
    requires { n ≤ deque_len messages.old }
    ensures rest { (messages.new).items ≡ drop n (messages.old).items }
    ensures len { deque_len messages.new + n ≡ deque_len messages.old }
    ensures capacity { deque_capacity messages.new ≡ deque_capacity messages.old }
{
    for _dropped in 0..n {
        let _ = messages.pop_front();
    }
}

// Copies of the messages at these places.
fn copied_range<T: Copied + Drop>(
    messages: &VecDeque<T>,
    first: usize,
    end: usize,
) -> Result<Vec<T>, OutOfMemory>
    requires order { first ≤ end }
    requires within { end ≤ deque_len messages.now }
    ensures { IfOk result (λ copies. copies.items ≡ drop first (take end (messages.now).items)) }
{
    let mut copies = Vec::with_capacity(*messages.allocator(), end - first)?;
    for i in first..end {
        copies.push_reserved(messages[i].copied()?);
    }
    Ok(copies)
}
