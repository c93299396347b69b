//! The book.
ghost use Rattle.std.specs.Prelude.{◌≡◌, ◌+◌, ◌<◌, ◌≤◌, OnOk, OnErr, count_by};
ghost use Rattle.confirm_book.specs.Book.{is_cast, is_publish, new_ledger, last_of, totals_of};
ghost use Rattle.confirm_book.specs.Book.{KeepsAll, published as published_in, newly, came_round as came_round_in};

use crate::count::Count;
use crate::kind::Kind;
use crate::marks::Marks;
use ring_names::OutOfMemory;
use std::alloc::Global;
use std::marker::Model;

/// How many messages a publisher has published, by kind, and how many of them have come round.
#[derive(Clone, Copy, PartialEq, Eq, Debug)]
pub struct Totals {
    /// The casts.
    pub casts: u64,
    /// Those of them that have come round.
    pub casts_confirmed: u64,
    /// The messages that were published to the queue.
    pub publishes: u64,
    /// Those of them that have come round.
    pub publishes_confirmed: u64,
}

/// The book of a publisher's own messages, the first being number 1. Each call takes constant time, however many
/// messages come round by it; `reserve` does so on average, since it doubles the room. No other call wants memory.
/// The book keeps the room for as many messages as ever waited at once, at 16 bytes each.
#[derive(Drop, Debug)]
pub struct Book {
    // The number of the last message.
    last: u64,
    // All that is published, and what of it has come round.
    published: Count,
    confirmed: Count,
    // Of each message that waits, what is published up to it.
    marks: Marks,
}

impl Model for Book {
    ghost use Rattle.confirm_book.specs.Book.{Ledger};
    ghost use Rattle.confirm_book.specs.Counts.{ledger_of, IsKept};

    ghost Value = { Ledger };

    ghost view = { λ b. ledger_of b.last b.confirmed b.marks };

    ghost invariant = { λ b. IsKept b.last b.published b.confirmed b.marks };
}

impl Book {
    /// The book of a publisher that has published nothing. It takes no memory; the allocator is for what the
    /// book reserves.
    pub fn new(alloc: Global) -> Book
        ensures { result ≡ new_ledger result.spare }
    {
        Book {
            last: 0,
            published: Count::default(),
            confirmed: Count::default(),
            marks: Marks::new(alloc),
        }
    }

    /// Makes room for one message more; memory is wanted only where there is no room. Without it the book is
    /// as it was.
    pub fn reserve(&mut self) -> Result<(), OutOfMemory>
        ensures ok { OnOk result (0 < (self.new).spare) }
        ensures full { OnErr result ((self.old).spare ≡ 0) }
        ensures spare { (self.old).spare ≤ (self.new).spare }
        ensures kept { KeepsAll self.old self.new }
    {
        self.marks.reserve()
    }

    /// The publisher publishes its next message, of this number and kind. It takes no memory: room was
    /// reserved.
    pub fn published(&mut self, number: u64, kind: Kind)
        requires room { 0 < (self.old).spare }
        requires next { number ≡ last_of self.old + 1 }
        ensures { self.new ≡ published_in kind self.old }
    {
        self.last = number;
        self.published = self.published.with(kind);
        self.marks.push(self.published);
    }

    /// The messages up to number `to` have come round. The answer is how many casts and how many publishes
    /// are confirmed by that and weren't before: none where `to` had come round already. Their room is free
    /// for others. It takes no memory.
    pub fn came_round(&mut self, to: u64) -> (u64, u64)
        requires { to ≤ last_of self.old }
        ensures round { self.new ≡ came_round_in to self.old }
        ensures casts { result.0 ≡ count_by is_cast (newly to self.old) }
        ensures publishes { result.1 ≡ count_by is_publish (newly to self.old) }
    {
        let round = self.last - self.marks.len() as u64;
        if to <= round {
            return (0, 0);
        }
        let before = self.confirmed;
        self.confirmed = self.marks.advance((to - round) as usize);
        (
            self.confirmed.casts - before.casts,
            self.confirmed.publishes - before.publishes,
        )
    }

    /// The messages by kind, and of each kind those that have come round.
    pub fn totals(&self) -> Totals
        ensures { result ≡ totals_of self.now }
    {
        Totals {
            casts: self.published.casts,
            casts_confirmed: self.confirmed.casts,
            publishes: self.published.publishes,
            publishes_confirmed: self.confirmed.publishes,
        }
    }
}
