//! How many rounds were given a number.
ghost use Rattle.std.specs.Prelude.{◌≡◌};
ghost use Rattle.ring_cluster.specs.Rounds.{more_rounds};

use std::marker::Model;

/// A count of rounds: each is given the next number, and only that changes it. It stands still at the last number.
#[derive(Drop, Debug)]
pub(crate) struct Rounds {
    count: u32,
}

impl Model for Rounds {
    ghost use Rattle.std.specs.Prelude.{ℕ};

    ghost Value = { ℕ };

    ghost view = { λ r. r.count };
}

impl Rounds {
    /// No round was given a number yet.
    pub(crate) fn none() -> Rounds
        ensures { result ≡ 0 }
    {
        Rounds { count: 0 }
    }

    /// One more round is given a number.
    pub(crate) fn number_one(&mut self)
        ensures { self.new ≡ more_rounds 1 self.old }
    {
        self.count = self.count.saturating_add(1);
    }

    /// How many rounds were given a number.
    pub(crate) fn count(&self) -> u32
        ensures { result ≡ self.now }
    {
        self.count
    }
}
