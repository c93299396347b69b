//! Counts that wait in a queue.
ghost use Rattle.std.specs.Prelude.{◌≡◌, ◌+◌, ◌-◌, ◌<◌, ◌≤◌, [], ◌∷◌, ◌++◌, length, drop, slice_index_or, OnOk, OnErr};

use crate::count::Count;
use ring_names::OutOfMemory;
use std::alloc::Global;
use std::collections::VecDeque;
use std::marker::Model;

/// A queue of counts from whose front any number leave in constant time: they stay where they are until their
/// places are wanted.
#[derive(Drop, Debug)]
pub(crate) struct Marks {
    counts: VecDeque<Count>,
    // How many counts at the front have left.
    left: usize,
}

impl Model for Marks {
    ghost use Rattle.std.specs.Prelude.{◌+◌, ◌-◌, ◌≤◌, drop};
    ghost use Rattle.std.proofs.Common.{deque_len, deque_capacity};
    ghost use Rattle.confirm_book.specs.Counts.{Row};

    ghost Value = { Row };

    ghost view = { λ m. record {
      counts = drop m.left m.counts.items;
      spare = deque_capacity m.counts - deque_len m.counts + m.left;
    } };

    ghost invariant = { λ m. m.left ≤ deque_len m.counts };
}

impl Marks {
    /// No counts. It takes no memory.
    pub fn new(alloc: Global) -> Marks
        ensures { result.counts ≡ [] }
    {
        Marks {
            counts: VecDeque::new(alloc),
            left: 0,
        }
    }

    pub fn len(&self) -> usize
        ensures { result ≡ length (self.now).counts }
    {
        self.counts.len() - self.left
    }

    /// Makes room for one count more, where there is none.
    pub fn reserve(&mut self) -> Result<(), OutOfMemory>
        ensures ok { OnOk result (0 < (self.new).spare) }
        ensures full { OnErr result ((self.old).spare ≡ 0) }
        ensures spare { (self.old).spare ≤ (self.new).spare }
        ensures kept { (self.new).counts ≡ (self.old).counts }
    {
        if self.left == 0 {
            self.counts.reserve(1)?;
        }
        Ok(())
    }

    /// A count joins the end, in the place of one that has left, if there is one.
    pub fn push(&mut self, count: Count)
        requires { 0 < (self.old).spare }
        ensures counts { (self.new).counts ≡ (self.old).counts ++ count ∷ [] }
        ensures spare { (self.new).spare ≡ (self.old).spare - 1 }
    {
        if self.left > 0 {
            let _ = self.counts.pop_front();
            self.left -= 1;
        }
        self.counts.push_back_reserved(count);
    }

    /// The first `n` counts leave. The answer is the last of them.
    pub fn advance(&mut self, n: usize) -> Count
        requires some { 0 < n }
        requires there { n ≤ length (self.old).counts }
        ensures last { result ≡ slice_index_or (self.old).counts (n - 1) result }
        ensures counts { (self.new).counts ≡ drop n (self.old).counts }
        ensures spare { (self.new).spare ≡ (self.old).spare + n }
    {
        self.left += n;
        self.counts[self.left - 1]
    }
}
