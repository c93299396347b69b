//! Which calls of a source or a sink over memory fail.
ghost use Rattle.std.specs.Prelude.{◌≡◌, ◌<◌, ◌≤◌};
ghost use Rattle.ring_io.specs.Memory.{is_next_listed, no_calls, one_failed, one_more};

use std::marker::Model;

/// Counts the calls, and knows which of them fail.
#[derive(Drop, Debug)]
pub struct Calls {
    fails: Vec<u32>,
    most: usize,
    made: u64,
    faults: u64,
}

impl Model for Calls {
    ghost use Rattle.std.specs.Prelude.{◌<◌};
    ghost use Rattle.ring_io.specs.Memory.{Calls as Seen};

    ghost Value = { Seen };

    ghost view = { λ c. record { fails = c.fails.items; most = c.most; made = c.made; faults = c.faults } };

    ghost invariant = { λ c. 0 < c.most };
}

impl Calls {
    /// No call was made yet. A call moves `most` bytes at most, 1 at least; those whose numbers, from 1, are in
    /// `fails` fail.
    pub fn new(most: usize, fails: Vec<u32>) -> Calls
        ensures { result ≡ no_calls most fails.items }
    {
        Calls {
            fails,
            most: most.max(1),
            made: 0,
            faults: 0,
        }
    }

    /// The most bytes that a call moves.
    pub fn most(&self) -> usize
        ensures most { result ≡ (self.now).most }
        ensures some { 0 < result }
    {
        self.most
    }

    /// Whether the next call fails.
    pub fn is_next_listed(&self) -> bool
        ensures { result ≡ is_next_listed self.now }
    {
        let next = self.made.saturating_add(1);
        self.fails.iter().any(|number| u64::from(*number) == next)
    }

    /// A call was made.
    pub fn count(&mut self)
        ensures { self.new ≡ one_more self.old }
    {
        self.made = self.made.saturating_add(1);
    }

    /// A call was made that failed.
    pub fn count_fault(&mut self)
        ensures counted { self.new ≡ one_failed self.old }
        ensures never_falls { (self.old).faults ≤ (self.new).faults }
    {
        self.made = self.made.saturating_add(1);
        self.faults = self.faults.saturating_add(1);
    }
}
