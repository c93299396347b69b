//! What is kept of each origin.
ghost use Rattle.std.specs.Prelude.{◌≡◌, ◌⊎◌, drop, take, IfSome, ℕ, ◌+◌, ◌<◌, ◌≤◌, ◌^◌, Bool, true, false, cond, nat_eq};
ghost use Rattle.std.specs.Prelude.{length, Some, [], ◌∷◌, ◌++◌, OnOk, OnErr, IfOk, IfErr, MatchOption};
ghost use Rattle.std.specs.List.{filter};
ghost use Rattle.group_view.specs.Ring.{AreDistinct};
ghost use Rattle.activity.specs.Order.{with_origin, with_origins};
ghost use Rattle.activity.specs.Kept.{got_of, no_kept, joined, kept_of, has_room, origins_of, KeepsRows};
ghost use Rattle.activity.specs.Packets.{line_of, origins};
ghost use Rattle.activity.specs.Plan.{changes_of, changed, change_of, changed_origins, accepted, AreReady, arrivals};
ghost use Rattle.activity.specs.Plan.{opened, begun, begins as line_begins, AreOpened, first_for, whole_change};
ghost use Rattle.activity.specs.Shown.{kept_in, kept_rows};

use crate::change::Change;
use crate::packet::{Line, Packet};
use crate::table::Table;
use indexmap::IndexMap;
use queue_core::Message;
use ring_names::{MemberId, OutOfMemory};
use std::alloc::Global;
use std::marker::Model;

/// What a member keeps of each origin, in the order in which it has first seen them. An origin without a
/// row counts with zeros and no message.
#[derive(Drop, Debug)]
pub struct Tables {
    pub(crate) rows: IndexMap<MemberId, Table>,
}

impl Model for Tables {
    ghost use Rattle.std.specs.Prelude.{List};
    ghost use Rattle.activity.specs.Kept.{KeptRow};

    ghost Value = { List KeptRow };

    ghost use Rattle.activity.specs.Shown.{kept_rows};

    ghost view = { λ t. kept_rows t.rows.entries };
}

/// The numbers of an origin.
#[derive(Clone, Copy, PartialEq, Eq, Debug)]
pub struct KeptNumbers {
    /// Of the last message.
    pub got: u64,
    /// Of the last message that is forgotten.
    pub forgot: u64,
    /// Of the last message whose acknowledgement has come round; 0 until the member answers for the origin.
    pub retired: u64,
    /// Behind which the member receives: of its first packet, where it joined, else 0.
    pub base: u64,
}

impl Tables {
    /// Nothing is kept of any origin. It takes no memory.
    pub fn new(alloc: Global) -> Tables
        ensures { result ≡ [] }
    {
        Tables {
            rows: IndexMap::new(alloc),
        }
    }

    /// What is kept of an origin; none only where that is nothing. It takes no memory.
    pub fn table(&self, origin: MemberId) -> Option<&Table>
        ensures { MatchOption result (kept_of self.now origin.0 ≡ no_kept)
            (λ table. kept_in table.now ≡ kept_of self.now origin.0) }
    {
        self.rows.get(&origin)
    }

    /// The numbers of an origin. It takes no memory.
    pub fn numbers(&self, origin: MemberId) -> KeptNumbers
        ensures got { result.got ≡ got_of (kept_of self.now origin.0) }
        ensures forgot { result.forgot ≡ (kept_of self.now origin.0).forgot }
        ensures retired { result.retired ≡ (kept_of self.now origin.0).retired }
        ensures base { result.base ≡ (kept_of self.now origin.0).base }
        ensures bound { got_of (kept_of self.now origin.0) ≤ 2 ^ 63 }
    {
        match self.table(origin) {
            Some(table) => KeptNumbers {
                got: table.store.got(),
                forgot: table.store.forgot(),
                retired: table.retired,
                base: table.base,
            },
            None => KeptNumbers {
                got: 0,
                forgot: 0,
                retired: 0,
                base: 0,
            },
        }
    }

    /// Makes room for one more message of an origin, which gets a row behind all others where it had none. What is
    /// kept stays, also where memory is wanting; then the row is there, or not.
    pub fn make_room_for(&mut self, origin: MemberId) -> Result<(), OutOfMemory>
        ensures ok { OnOk result (has_room self.new origin.0 1 ≡ true) }
        ensures order { OnOk result (origins_of self.new ≡ with_origin origin.0 (origins_of self.old)) }
        ensures err { OnErr result ((origins_of self.new ≡ origins_of self.old)
            ⊎ (origins_of self.new ≡ with_origin origin.0 (origins_of self.old))) }
        ensures kept { KeepsRows self.old self.new }
    {
        reserve(&mut self.rows, origin, 1)
    }

    /// A message joins the log of an origin, as its next. It takes no memory: room was made.
    pub fn push(&mut self, origin: MemberId, message: Message)
        requires room { has_room self.old origin.0 1 ≡ true }
        requires below { got_of (kept_of self.old origin.0) < 2 ^ 63 }
        ensures kept { (p : ℕ) → kept_of self.new p
            ≡ cond (nat_eq p origin.0) (joined message (kept_of self.old p)) (kept_of self.old p) }
        ensures order { origins_of self.new ≡ origins_of self.old }
    {
        push_message(&mut self.rows, origin, message);
    }

    /// Makes room for all that changes bring: an origin that had no row gets one, behind all others. What is kept
    /// stays, also where memory is wanting; then the origins of the first changes have rows.
    pub fn make_room(&mut self, changes: &[Change]) -> Result<(), OutOfMemory>
        ensures ok { OnOk result (AreReady self.new changes.now) }
        ensures order { OnOk result (origins_of self.new
            ≡ with_origins (changed_origins changes.now) (origins_of self.old)) }
        ensures err { OnErr result ((n : ℕ) × (origins_of self.new
            ≡ with_origins (changed_origins (take n changes.now)) (origins_of self.old))) }
        ensures kept { KeepsRows self.old self.new }
    {
        reserve_all(&mut self.rows, changes)
    }

    /// What a packet changes, by its plan: its messages are moved, none is copied. It takes no memory: room
    /// was made. The plan is that of `plan` for these tables, whoever took the packet from whom: `own` tells
    /// for which origins the taker answers.
    pub fn apply(&mut self, packet: Packet, changes: &[Change])
        requires planned { (own : ℕ → Bool) × (changes.now ≡ changes_of own self.old packet.lines) }
        requires room { AreReady self.old changes.now }
        ensures kept { (own : ℕ → Bool) → changes.now ≡ changes_of own self.old packet.lines
            → (p : ℕ) → kept_of self.new p ≡ accepted (own p) (kept_of self.old p) (line_of packet.lines p) }
        ensures order { origins_of self.new ≡ origins_of self.old }
    {
        apply_lines(&mut self.rows, packet.lines.into_vec(), changes);
    }

    /// The tables of a member that waits, before the messages of its first packet join: each line that is
    /// used has a row there, with room, and no other origin has one; the rows stand in the order of the lines.
    pub fn opening(alloc: Global, packet: &Packet) -> Result<Tables, OutOfMemory>
        ensures kept { IfOk result (λ tables. (p : ℕ) → kept_of tables p ≡ opened (line_of (packet.now).lines p)) }
        ensures room { IfOk result (λ tables. AreOpened tables (packet.now).lines) }
        ensures order { IfOk result (λ tables. origins_of tables ≡ origins (filter line_begins (packet.now).lines)) }
    {
        let rows = open_rows(alloc, packet.lines())?;
        Ok(Tables { rows })
    }

    /// The messages of that packet join: they are moved, none is copied. It takes no memory.
    pub fn fill(&mut self, packet: Packet)
        requires kept { (p : ℕ) → kept_of self.old p ≡ opened (line_of packet.lines p) }
        requires room { AreOpened self.old packet.lines }
        ensures kept { (p : ℕ) → kept_of self.new p ≡ begun (line_of packet.lines p) }
        ensures order { origins_of self.new ≡ origins_of self.old }
    {
        fill_lines(&mut self.rows, packet.lines.into_vec());
    }

    /// What a member that waits makes of its first packet, origin by origin in the order of the lines. A line is
    /// passed over whose `forgot` is below its `lo`, or above the number of its last message. Where memory is
    /// wanting, the packet comes back.
    pub fn begin(alloc: Global, packet: Packet) -> Result<Tables, (Packet, OutOfMemory)>
        ensures ok { IfOk result (λ tables. (p : ℕ) → kept_of tables p ≡ begun (line_of packet.lines p)) }
        ensures order { IfOk result (λ tables. origins_of tables ≡ origins (filter line_begins packet.lines)) }
        ensures back { IfErr result (λ e. e.0 ≡ packet) }
    {
        match Tables::opening(alloc, &packet) {
            Ok(mut tables) => {
                tables.fill(packet);
                Ok(tables)
            }
            Err(error) => Err((packet, error)),
        }
    }
}

// ---- rows

/// Gives the origin a row, where it has none.
fn make_row(rows: &mut IndexMap<MemberId, Table>, origin: MemberId) -> Result<(), OutOfMemory>
    ensures ok { OnOk result (has_room (kept_rows rows.new.entries) origin.0 0 ≡ true) }
    ensures order { OnOk result (origins_of (kept_rows rows.new.entries)
        ≡ with_origin origin.0 (origins_of (kept_rows rows.old.entries))) }
    ensures err { OnErr result (origins_of (kept_rows rows.new.entries) ≡ origins_of (kept_rows rows.old.entries)) }
    ensures kept { KeepsRows (kept_rows rows.old.entries) (kept_rows rows.new.entries) }
{
    if !rows.contains_key(&origin) {
        let table = Table::starting(*rows.allocator(), 0, 0);
        rows.insert(origin, table)?;
    }
    Ok(())
}

/// Gives the row of an origin this room.
fn reserve_row(
    rows: &mut IndexMap<MemberId, Table>,
    origin: MemberId,
    n: u64,
) -> Result<(), OutOfMemory>
    requires { has_room (kept_rows rows.old.entries) origin.0 0 ≡ true }
    ensures ok { OnOk result (has_room (kept_rows rows.new.entries) origin.0 n ≡ true) }
    ensures order { origins_of (kept_rows rows.new.entries) ≡ origins_of (kept_rows rows.old.entries) }
    ensures kept { KeepsRows (kept_rows rows.old.entries) (kept_rows rows.new.entries) }
{
    let Some(table) = rows.get_mut(&origin) else {
        return Ok(());
    };
    table.store.reserve(n)
}

/// Gives the origin a row with this room.
fn reserve(
    rows: &mut IndexMap<MemberId, Table>,
    origin: MemberId,
    n: u64,
) -> Result<(), OutOfMemory>
    ensures ok { OnOk result (has_room (kept_rows rows.new.entries) origin.0 n ≡ true) }
    ensures order { OnOk result (origins_of (kept_rows rows.new.entries)
        ≡ with_origin origin.0 (origins_of (kept_rows rows.old.entries))) }
    ensures err { OnErr result ((origins_of (kept_rows rows.new.entries) ≡ origins_of (kept_rows rows.old.entries))
        ⊎ (origins_of (kept_rows rows.new.entries)
        ≡ with_origin origin.0 (origins_of (kept_rows rows.old.entries)))) }
    ensures kept { KeepsRows (kept_rows rows.old.entries) (kept_rows rows.new.entries) }
{
    make_row(rows, origin)?;
    reserve_row(rows, origin, n)
}

fn reserve_all(rows: &mut IndexMap<MemberId, Table>, changes: &[Change]) -> Result<(), OutOfMemory>
    ensures ok { OnOk result (AreReady (kept_rows rows.new.entries) changes.now) }
    ensures order { OnOk result (origins_of (kept_rows rows.new.entries)
        ≡ with_origins (changed_origins changes.now) (origins_of (kept_rows rows.old.entries))) }
    ensures err { OnErr result ((n : ℕ) × (origins_of (kept_rows rows.new.entries)
        ≡ with_origins (changed_origins (take n changes.now)) (origins_of (kept_rows rows.old.entries)))) }
    ensures kept { KeepsRows (kept_rows rows.old.entries) (kept_rows rows.new.entries) }
{
    for change in changes {
        reserve(rows, change.origin(), change.arrivals())?;
    }
    Ok(())
}

fn push_message(rows: &mut IndexMap<MemberId, Table>, origin: MemberId, message: Message)
    requires room { has_room (kept_rows rows.old.entries) origin.0 1 ≡ true }
    requires below { got_of (kept_of (kept_rows rows.old.entries) origin.0) < 2 ^ 63 }
    ensures kept { (p : ℕ) → kept_of (kept_rows rows.new.entries) p ≡ cond (nat_eq p origin.0)
        (joined message (kept_of (kept_rows rows.old.entries) p)) (kept_of (kept_rows rows.old.entries) p) }
    ensures order { origins_of (kept_rows rows.new.entries) ≡ origins_of (kept_rows rows.old.entries) }
{
    let Some(table) = rows.get_mut(&origin) else {
        return;
    };
    table.store.push(message);
}

// ---- packets

/// What a line changes, given its origin.
fn apply_line(rows: &mut IndexMap<MemberId, Table>, origin: MemberId, line: Line, change: Change)
    requires planned { (own : Bool)
        × (change_of own (kept_of (kept_rows rows.old.entries) origin.0) line ≡ Some change) }
    requires room { has_room (kept_rows rows.old.entries) origin.0 (arrivals change) ≡ true }
    ensures kept { (p : ℕ) → kept_of (kept_rows rows.new.entries) p ≡ cond (nat_eq p origin.0)
        (changed (kept_of (kept_rows rows.old.entries) p) line change) (kept_of (kept_rows rows.old.entries) p) }
    ensures room { (p n : ℕ) → nat_eq p origin.0 ≡ false
        → has_room (kept_rows rows.new.entries) p n ≡ has_room (kept_rows rows.old.entries) p n }
    ensures order { origins_of (kept_rows rows.new.entries) ≡ origins_of (kept_rows rows.old.entries) }
{
    let Some(table) = rows.get_mut(&origin) else {
        return;
    };
    table.accept(line, change);
}

/// The change at a place, if it is of this origin.
fn change_for(changes: &[Change], place: usize, origin: MemberId) -> Option<Change>
    ensures change { result ≡ first_for origin.0 (drop place changes.now) }
    ensures within { IfSome result (λ change. place < length changes.now) }
{
    let change = changes.get(place)?;
    if change.origin() == origin {
        Some(*change)
    } else {
        None
    }
}

fn apply_lines(rows: &mut IndexMap<MemberId, Table>, lines: Vec<Line>, changes: &[Change])
    requires distinct { AreDistinct (origins lines.items) }
    requires planned { (own : ℕ → Bool)
        × (changes.now ≡ changes_of own (kept_rows rows.old.entries) lines.items) }
    requires room { AreReady (kept_rows rows.old.entries) changes.now }
    ensures kept { (own : ℕ → Bool) → changes.now ≡ changes_of own (kept_rows rows.old.entries) lines.items
        → (p : ℕ) → kept_of (kept_rows rows.new.entries) p
        ≡ accepted (own p) (kept_of (kept_rows rows.old.entries) p) (line_of lines.items p) }
    ensures order { origins_of (kept_rows rows.new.entries) ≡ origins_of (kept_rows rows.old.entries) }
{
    let mut next = 0;
    for line in lines {
        if let Some(change) = change_for(changes, next, line.origin) {
            apply_line(rows, line.origin, line, change);
            next += 1;
        }
    }
}

// ---- a first packet

/// Whether a line of a first packet is used.
fn begins(line: &Line) -> bool
    ensures { result ≡ line_begins line.now }
{
    line.lo <= line.forgot && line.forgot <= line.got()
}

/// What a line changes, as if all its messages were received.
fn as_received(line: &Line) -> Change
    ensures { result ≡ whole_change line.now }
{
    Change::Receive {
        origin: line.origin,
        from: line.lo,
        to: line.got(),
        forgot: line.forgot,
    }
}

/// Adds a row of an origin that has none: its messages go on behind `lo`, the member receives behind `base`, and
/// there is room for `n`.
fn add_row(
    rows: &mut IndexMap<MemberId, Table>,
    origin: MemberId,
    lo: u64,
    base: u64,
    n: u64,
) -> Result<(), OutOfMemory>
    requires absent { has_room (kept_rows rows.old.entries) origin.0 0 ≡ false }
    requires small { lo ≤ 2 ^ 63 }
    ensures kept { OnOk result ((p : ℕ) → kept_of (kept_rows rows.new.entries) p ≡ cond (nat_eq p origin.0)
        (record { forgot = lo; messages = []; retired = 0; base = base }) (kept_of (kept_rows rows.old.entries) p)) }
    ensures room { OnOk result (has_room (kept_rows rows.new.entries) origin.0 n ≡ true) }
    ensures others { OnOk result ((p m : ℕ) → nat_eq p origin.0 ≡ false
        → has_room (kept_rows rows.new.entries) p m ≡ has_room (kept_rows rows.old.entries) p m) }
    ensures order { OnOk result (origins_of (kept_rows rows.new.entries)
        ≡ origins_of (kept_rows rows.old.entries) ++ origin.0 ∷ []) }
{
    let mut table = Table::starting(*rows.allocator(), lo, base);
    table.store.reserve(n)?;
    rows.insert(origin, table)?;
    Ok(())
}

/// Gives the line's origin a row, with room for its messages, if it is used.
fn open_row(rows: &mut IndexMap<MemberId, Table>, line: &Line) -> Result<(), OutOfMemory>
    requires { has_room (kept_rows rows.old.entries) (line.now).origin.0 0 ≡ false }
    ensures kept { OnOk result ((p : ℕ) → kept_of (kept_rows rows.new.entries) p ≡ cond (nat_eq p (line.now).origin.0)
        (opened (Some line.now)) (kept_of (kept_rows rows.old.entries) p)) }
    ensures room { OnOk result (line_begins line.now ≡ true
        → has_room (kept_rows rows.new.entries) (line.now).origin.0 (length (line.now).messages) ≡ true) }
    ensures others { OnOk result ((p m : ℕ) → nat_eq p (line.now).origin.0 ≡ false
        → has_room (kept_rows rows.new.entries) p m ≡ has_room (kept_rows rows.old.entries) p m) }
    ensures order { OnOk result (origins_of (kept_rows rows.new.entries)
        ≡ origins_of (kept_rows rows.old.entries) ++ origins (filter line_begins (line.now ∷ []))) }
{
    if !begins(line) {
        return Ok(());
    }
    let n = line.messages.as_slice().len() as u64;
    add_row(rows, line.origin, line.lo, line.got(), n)
}

fn open_rows(alloc: Global, lines: &[Line]) -> Result<IndexMap<MemberId, Table>, OutOfMemory>
    requires { AreDistinct (origins lines.now) }
    ensures kept { IfOk result (λ rows. (p : ℕ) → kept_of (kept_rows rows.entries) p ≡ opened (line_of lines.now p)) }
    ensures room { IfOk result (λ rows. AreOpened (kept_rows rows.entries) lines.now) }
    ensures order { IfOk result (λ rows. origins_of (kept_rows rows.entries)
        ≡ origins (filter line_begins lines.now)) }
{
    let mut rows = IndexMap::new(alloc);
    for line in lines {
        open_row(&mut rows, line)?;
    }
    Ok(rows)
}

fn fill_lines(rows: &mut IndexMap<MemberId, Table>, lines: Vec<Line>)
    requires distinct { AreDistinct (origins lines.items) }
    requires kept { (p : ℕ) → kept_of (kept_rows rows.old.entries) p ≡ opened (line_of lines.items p) }
    requires room { AreOpened (kept_rows rows.old.entries) lines.items }
    ensures kept { (p : ℕ) → kept_of (kept_rows rows.new.entries) p ≡ begun (line_of lines.items p) }
    ensures order { origins_of (kept_rows rows.new.entries) ≡ origins_of (kept_rows rows.old.entries) }
{
    for line in lines {
        if begins(&line) {
            let change = as_received(&line);
            apply_line(rows, line.origin, line, change);
        }
    }
}
