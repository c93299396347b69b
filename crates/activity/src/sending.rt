//! What is new on a link.
ghost use Rattle.std.specs.Prelude.{◌≡◌, ℕ, ◌≤◌, ◌++◌, ◌∷◌, [], cond, slice_get, Some, IfOk, OnOk};
ghost use Rattle.group_view.specs.Ring.{AreDistinct};
ghost use Rattle.activity.specs.Kept.{KeptRow, got_of, kept_of, origins_of};
ghost use Rattle.activity.specs.LastSent.{sent_of};
ghost use Rattle.activity.specs.Packets.{line_of};
ghost use Rattle.activity.specs.Diff.{has_line as line_there, lo_of, line_from, next_line, lines_of, IsNotAbove};
ghost use Rattle.activity.specs.Shown.{kept_in, last_sent_of};

use crate::packet::{Line, Packet};
use crate::sent::{Sent, SentRow};
use crate::table::Table;
use crate::tables::Tables;
use ring_names::{Items, MemberId, OutOfMemory, Stamp};
use std::alloc::Global;

/// The next packet on a link, with this stamp, of a member whose view is of this version: a first one with
/// all that isn't forgotten, of each origin with a message; any other with what is new since the last one, of
/// each origin whose numbers aren't the last sent. Each message that goes with it is copied once. As the part
/// of `gm:send_right` that makes the `activity`.
pub fn diff(
    alloc: Global,
    sent: &Sent,
    tables: &Tables,
    stamp: Stamp,
    view: u32,
    first: bool,
) -> Result<Packet, OutOfMemory>
    requires { IsNotAbove sent.now tables.now }
    ensures packet { IfOk result (λ packet. packet
        ≡ record { stamp = stamp; view = view; first = first; lines = lines_of first sent.now tables.now }) }
    ensures lines { IfOk result (λ packet. (p : ℕ) → line_of packet.lines p
        ≡ next_line first p (kept_of tables.now p) (sent_of sent.now p)) }
{
    let lines = next_lines(alloc, sent, tables, first)?;
    Ok(Packet {
        stamp,
        view,
        first,
        lines: Items::from_vec(lines),
    })
}

fn has_line(first: bool, table: &Table, last: SentRow) -> bool
    ensures { result ≡ line_there first (kept_in table.now) (last_sent_of last) }
{
    let got = table.store.got();
    if first {
        return got != 0;
    }
    got != last.got || table.store.forgot() != last.forgot
}

fn first_number(first: bool, table: &Table, last: SentRow) -> u64
    ensures { result ≡ lo_of first (kept_in table.now) (last_sent_of last) }
{
    let forgot = table.store.forgot();
    if first { forgot } else { forgot.max(last.got) }
}

/// The messages behind a number.
fn line_behind(lo: u64, origin: MemberId, table: &Table) -> Result<Line, OutOfMemory>
    requires forgot { (kept_in table.now).forgot ≤ lo }
    requires got { lo ≤ got_of (kept_in table.now) }
    ensures { IfOk result (λ line. line ≡ line_from lo origin (kept_in table.now)) }
{
    let messages = table.store.slice(lo, table.store.got())?;
    Ok(Line {
        origin,
        lo,
        messages: Items::from_vec(messages),
        forgot: table.store.forgot(),
    })
}

/// Adds the line of an origin, if it has one.
fn push_line(
    lines: &mut Vec<Line>,
    first: bool,
    origin: MemberId,
    table: &Table,
    last: SentRow,
) -> Result<(), OutOfMemory>
    requires { (last_sent_of last).got ≤ got_of (kept_in table.now) }
    ensures { OnOk result ((lines.new).items
        ≡ (lines.old).items ++ cond (line_there first (kept_in table.now) (last_sent_of last))
        (line_from (lo_of first (kept_in table.now) (last_sent_of last)) origin (kept_in table.now) ∷ []) []) }
{
    if !has_line(first, table, last) {
        return Ok(());
    }
    let line = line_behind(first_number(first, table, last), origin, table)?;
    lines.push(line)?;
    Ok(())
}

/// Adds the line of the row at a place, if it has one.
fn push_row(
    lines: &mut Vec<Line>,
    sent: &Sent,
    tables: &Tables,
    first: bool,
    place: usize,
) -> Result<(), OutOfMemory>
    requires { IsNotAbove sent.now tables.now }
    ensures { OnOk result ((r : KeptRow) → slice_get tables.now place ≡ Some r
        → (lines.new).items ≡ (lines.old).items ++ lines_of first sent.now (r ∷ [])) }
{
    let Some((origin, table)) = tables.rows.get_index(place) else {
        return Ok(());
    };
    push_line(lines, first, *origin, table, sent.last(*origin))
}

fn next_lines(
    alloc: Global,
    sent: &Sent,
    tables: &Tables,
    first: bool,
) -> Result<Vec<Line>, OutOfMemory>
    requires { IsNotAbove sent.now tables.now }
    ensures lines { IfOk result (λ v. v.items ≡ lines_of first sent.now tables.now) }
    ensures distinct { OnOk result (AreDistinct (origins_of tables.now)) }
{
    let mut lines = Vec::new(alloc);
    for place in 0..tables.rows.len() {
        push_row(&mut lines, sent, tables, first, place)?;
    }
    Ok(lines)
}
