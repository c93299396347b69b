//! What a line of a packet changes.
ghost use Rattle.std.specs.Prelude.{◌≡◌};
ghost use Rattle.activity.specs.Plan.{origin_of, arrivals as arrivals_of};

use ring_names::MemberId;

/// What a line of a packet changes at the member that takes it.
#[derive(Clone, Copy, PartialEq, Eq, Debug)]
pub enum Change {
    /// Messages of another's log are got, and some are forgotten.
    Receive {
        /// Whose they are.
        origin: MemberId,
        /// The number after which messages are new.
        from: u64,
        /// The number of the last message.
        to: u64,
        /// The number up to which they are forgotten.
        forgot: u64,
    },
    /// Messages for which the member answers have come round.
    CameRound {
        /// Whose they are.
        origin: MemberId,
        /// The number of the last message that has come round: up to it they are forgotten.
        forgot: u64,
        /// The number of the last one whose acknowledgement has come round too.
        retired: u64,
    },
}

impl Change {
    /// Whose messages it concerns.
    pub fn origin(&self) -> MemberId
        ensures { result ≡ origin_of self.now }
    {
        match self {
            Change::Receive { origin, .. } => *origin,
            Change::CameRound { origin, .. } => *origin,
        }
    }

    /// How many messages it brings.
    pub fn arrivals(&self) -> u64
        ensures { result ≡ arrivals_of self.now }
    {
        match self {
            Change::Receive { from, to, .. } => to.saturating_sub(*from),
            Change::CameRound { .. } => 0,
        }
    }
}
