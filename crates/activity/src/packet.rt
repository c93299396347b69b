//! What goes from a member to its right neighbour.
ghost use Rattle.std.specs.Prelude.{◌≡◌, ◌≤◌, ◌^◌};
ghost use Rattle.activity.specs.Packets.{got_in, origins};
ghost use Rattle.group_view.specs.Ring.{AreDistinct};

use queue_core::Message;
use ring_names::{Items, MemberId, Stamp};
use std::marker::Model;

/// What a packet says of one origin: the messages behind number `lo`, in order, and the number up to which
/// the sender has forgotten them. The number of the last message is at most 2 to the 63.
#[derive(Drop, Debug)]
pub struct Line {
    /// Whose messages they are.
    pub origin: MemberId,
    /// The number of the message before the first.
    pub lo: u64,
    /// The messages numbered from `lo` + 1 on.
    pub messages: Items<Message>,
    /// The number of the last message that the sender has forgotten.
    pub forgot: u64,
}

impl Model for Line {
    ghost use Rattle.std.specs.Prelude.{◌+◌, ◌≤◌, ◌^◌, length};
    ghost use Rattle.activity.specs.Packets.{LineSeen};

    ghost Value = { LineSeen };

    ghost view = { λ l. record { origin = l.origin; lo = l.lo; messages = l.messages; forgot = l.forgot } };

    ghost invariant = { λ l. l.lo + length l.messages ≤ 2 ^ 63 };
}

impl Line {
    /// The number of its last message; `lo` where it has none.
    pub fn got(&self) -> u64
        ensures value { result ≡ got_in self.now }
        ensures bound { got_in self.now ≤ 2 ^ 63 }
    {
        self.lo + self.messages.as_slice().len() as u64
    }
}

/// A packet: the version of its sender's view, whether it is the first on its link, and a line for each
/// origin of which there is something to say. Its lines have different origins.
#[derive(Drop, Debug)]
pub struct Packet {
    /// When it was put.
    pub stamp: Stamp,
    /// The version of the sender's view.
    pub view: u32,
    /// Whether it is the first on its link.
    pub first: bool,
    /// The lines, in the order in which the sender has first seen their origins.
    pub lines: Items<Line>,
}

impl Model for Packet {
    ghost use Rattle.activity.specs.Packets.{PacketSeen, origins};
    ghost use Rattle.group_view.specs.Ring.{AreDistinct};

    ghost Value = { PacketSeen };

    ghost view = { λ p. record { stamp = p.stamp; view = p.view; first = p.first; lines = p.lines } };

    ghost invariant = { λ p. AreDistinct (origins p.lines) };
}

impl Packet {
    /// The lines.
    pub fn lines(&self) -> &[Line]
        ensures lines { result.now ≡ (self.now).lines }
        ensures distinct { AreDistinct (origins (self.now).lines) }
    {
        self.lines.as_slice()
    }
}

/// What stands on a link.
#[derive(Drop, Debug)]
pub enum Load {
    /// What its sender has of each origin.
    Packet(Packet),
}
