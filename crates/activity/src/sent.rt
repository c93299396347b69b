//! What was last sent of each origin on a link.
ghost use Rattle.std.specs.Prelude.{◌≡◌, ℕ, OnOk, OnErr, [], cond, nat_eq, take, true};
ghost use Rattle.activity.specs.LastSent.{sent_of, has_row, origins_sent, KeepsSent};
ghost use Rattle.activity.specs.Order.{with_origin, with_origins};
ghost use Rattle.activity.specs.Packets.{line_of, noted, last_sent_in, origins, HasRows};
ghost use Rattle.group_view.specs.Ring.{AreDistinct};
ghost use Rattle.activity.specs.Shown.{last_sent_of, last_sent_rows};

use crate::packet::{Line, Packet};
use indexmap::IndexMap;
use ring_names::{MemberId, OutOfMemory};
use std::alloc::Global;
use std::marker::Model;

/// The numbers last sent of an origin.
#[derive(Clone, Copy, PartialEq, Eq, Debug)]
pub struct SentRow {
    /// Of the last message.
    pub got: u64,
    /// Of the last message that the sender had forgotten.
    pub forgot: u64,
}

/// What counts of an origin of which nothing was sent.
const NOTHING: SentRow = SentRow { got: 0, forgot: 0 };

/// The numbers last sent of each origin on one link, in the order in which its packets first had a line of the origin.
/// An origin without a row counts with zeros.
#[derive(Drop, Debug)]
pub struct Sent {
    rows: IndexMap<MemberId, SentRow>,
}

impl Model for Sent {
    ghost use Rattle.std.specs.Prelude.{List};
    ghost use Rattle.activity.specs.LastSent.{LastSentRow};

    ghost Value = { List LastSentRow };

    ghost use Rattle.activity.specs.Shown.{last_sent_rows};

    ghost view = { λ s. last_sent_rows s.rows.entries };
}

impl Sent {
    /// Nothing was sent. It takes no memory.
    pub fn new(alloc: Global) -> Sent
        ensures { result ≡ [] }
    {
        Sent {
            rows: IndexMap::new(alloc),
        }
    }

    /// The numbers last sent of an origin.
    pub fn last(&self, origin: MemberId) -> SentRow
        ensures { last_sent_of result ≡ sent_of self.now origin.0 }
    {
        match self.rows.get(&origin) {
            Some(row) => *row,
            None => NOTHING,
        }
    }

    /// Gives each origin of a packet a row, so that the packet can be noted: behind all others, where it had none. The
    /// numbers stay, also where memory is wanting; then the origins of the first lines have rows.
    pub fn make_room(&mut self, packet: &Packet) -> Result<(), OutOfMemory>
        ensures ok { OnOk result (HasRows self.new (packet.now).lines) }
        ensures order { OnOk result (origins_sent self.new
            ≡ with_origins (origins (packet.now).lines) (origins_sent self.old)) }
        ensures err { OnErr result ((n : ℕ) × (origins_sent self.new
            ≡ with_origins (origins (take n (packet.now).lines)) (origins_sent self.old))) }
        ensures kept { KeepsSent self.old self.new }
    {
        make_rows(&mut self.rows, packet.lines())
    }

    /// The packet was sent: its numbers are those last sent. It takes no memory: room was made.
    pub fn note(&mut self, packet: &Packet)
        requires { HasRows self.old (packet.now).lines }
        ensures sent { (p : ℕ) → sent_of self.new p ≡ noted (line_of (packet.now).lines p) (sent_of self.old p) }
        ensures order { origins_sent self.new ≡ origins_sent self.old }
    {
        note_lines(&mut self.rows, packet.lines());
    }
}

fn make_row(rows: &mut IndexMap<MemberId, SentRow>, origin: MemberId) -> Result<(), OutOfMemory>
    ensures ok { OnOk result (has_row (last_sent_rows rows.new.entries) origin.0 ≡ true) }
    ensures order { OnOk result (origins_sent (last_sent_rows rows.new.entries)
        ≡ with_origin origin.0 (origins_sent (last_sent_rows rows.old.entries))) }
    ensures err { OnErr result (origins_sent (last_sent_rows rows.new.entries)
        ≡ origins_sent (last_sent_rows rows.old.entries)) }
    ensures kept { KeepsSent (last_sent_rows rows.old.entries) (last_sent_rows rows.new.entries) }
{
    if !rows.contains_key(&origin) {
        rows.insert(origin, NOTHING)?;
    }
    Ok(())
}

fn make_rows(rows: &mut IndexMap<MemberId, SentRow>, lines: &[Line]) -> Result<(), OutOfMemory>
    ensures ok { OnOk result (HasRows (last_sent_rows rows.new.entries) lines.now) }
    ensures order { OnOk result (origins_sent (last_sent_rows rows.new.entries)
        ≡ with_origins (origins lines.now) (origins_sent (last_sent_rows rows.old.entries))) }
    ensures err { OnErr result ((n : ℕ) × (origins_sent (last_sent_rows rows.new.entries)
        ≡ with_origins (origins (take n lines.now)) (origins_sent (last_sent_rows rows.old.entries)))) }
    ensures kept { KeepsSent (last_sent_rows rows.old.entries) (last_sent_rows rows.new.entries) }
{
    for line in lines {
        make_row(rows, line.origin)?;
    }
    Ok(())
}

fn write_row(rows: &mut IndexMap<MemberId, SentRow>, origin: MemberId, last: SentRow)
    requires { has_row (last_sent_rows rows.old.entries) origin.0 ≡ true }
    ensures sent { (p : ℕ) → sent_of (last_sent_rows rows.new.entries) p
        ≡ cond (nat_eq p origin.0) (last_sent_of last) (sent_of (last_sent_rows rows.old.entries) p) }
    ensures order { origins_sent (last_sent_rows rows.new.entries) ≡ origins_sent (last_sent_rows rows.old.entries) }
    ensures kept { (p : ℕ) → has_row (last_sent_rows rows.old.entries) p ≡ true
        → has_row (last_sent_rows rows.new.entries) p ≡ true }
{
    let Some(row) = rows.get_mut(&origin) else {
        return;
    };
    *row = last;
}

fn note_line(rows: &mut IndexMap<MemberId, SentRow>, line: &Line)
    requires { has_row (last_sent_rows rows.old.entries) (line.now).origin.0 ≡ true }
    ensures sent { (p : ℕ) → sent_of (last_sent_rows rows.new.entries) p
        ≡ cond (nat_eq p (line.now).origin.0) (last_sent_in line.now) (sent_of (last_sent_rows rows.old.entries) p) }
    ensures order { origins_sent (last_sent_rows rows.new.entries) ≡ origins_sent (last_sent_rows rows.old.entries) }
    ensures kept { (p : ℕ) → has_row (last_sent_rows rows.old.entries) p ≡ true
        → has_row (last_sent_rows rows.new.entries) p ≡ true }
{
    let last = SentRow {
        got: line.got(),
        forgot: line.forgot,
    };
    write_row(rows, line.origin, last);
}

fn note_lines(rows: &mut IndexMap<MemberId, SentRow>, lines: &[Line])
    requires rows { HasRows (last_sent_rows rows.old.entries) lines.now }
    requires distinct { AreDistinct (origins lines.now) }
    ensures sent { (p : ℕ) → sent_of (last_sent_rows rows.new.entries) p
        ≡ noted (line_of lines.now p) (sent_of (last_sent_rows rows.old.entries) p) }
    ensures order { origins_sent (last_sent_rows rows.new.entries) ≡ origins_sent (last_sent_rows rows.old.entries) }
{
    for line in lines {
        note_line(rows, line);
    }
}
