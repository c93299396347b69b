//! Lamport clocks.
ghost use Rattle.std.specs.Prelude.{◌≡◌, ◌+◌, false};
ghost use Rattle.lamport_merge.specs.Clocks.{clock_at, met, is_spent};

use ring_names::Stamp;

/// From this time on a clock is spent.
const LAST: u32 = 4_294_967_294;

/// The clock of a party in a round (Lamport clocks): it counts what the party does there, and stands above the
/// times of all stamps of that round that the party has met. No call takes memory.
#[derive(Clone, Copy, PartialEq, Eq, Debug)]
pub struct Clock {
    // The number of the round, and 0 before the first.
    pub(crate) round: u32,
    // The time of what the party did last in it, or met since, and 0 before that.
    pub(crate) time: u32,
}

impl Clock {
    /// A clock before the first round.
    pub fn new() -> Clock
        ensures { result ≡ clock_at 0 0 }
    {
        Clock { round: 0, time: 0 }
    }

    /// The round of this number begins.
    pub fn begin(&mut self, round: u32)
        ensures { self.new ≡ clock_at round 0 }
    {
        self.round = round;
        self.time = 0;
    }

    /// The party takes what was given under this stamp: what it does from now on is later than that. A stamp of
    /// another round says nothing of this one.
    pub fn meet(&mut self, stamp: Stamp)
        ensures { self.new ≡ met self.old stamp }
    {
        if stamp.round == self.round && stamp.time > self.time {
            self.time = stamp.time;
        }
    }

    /// The party does something. The answer is the time at which it does it.
    pub fn tick(&mut self) -> u32
        requires { is_spent self.old ≡ false }
        ensures time { result ≡ (self.old).time + 1 }
        ensures ticked { self.new ≡ clock_at (self.old).round result }
    {
        self.time += 1;
        self.time
    }

    /// Whether the party does nothing more in this round, since its times are used up.
    pub fn spent(&self) -> bool
        ensures { result ≡ is_spent self.now }
    {
        self.time >= LAST
    }
}
