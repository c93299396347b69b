//! What a packet changes.
ghost use Rattle.std.specs.Prelude.{◌≡◌, ◌++◌, [], IfOk, OnOk};
ghost use Rattle.std.specs.List.{cons_option};
ghost use Rattle.activity.specs.Kept.{kept_of};
ghost use Rattle.activity.specs.Plan.{owns as owned, change_of as change_by, changes_of};

use crate::change::Change;
use crate::packet::{Line, Packet};
use crate::tables::Tables;
use group_view::View;
use ring_names::{MemberId, OutOfMemory};
use std::alloc::Global;

/// Whether a member answers, against a sender, for an origin: it is the member, or stands between the two in
/// the member's view; where the sender is the member, for each.
fn owns(view: &View, me: MemberId, sender: MemberId, origin: MemberId) -> bool
    ensures { result ≡ owned view.now me.0 sender.0 origin.0 }
{
    origin.0 == me.0 || view.is_between(sender, origin, me)
}

/// What a line changes at a member with these tables, which answers for the line's origin or doesn't: none where the
/// line isn't used. It takes no memory.
pub fn line_change(own: bool, tables: &Tables, line: &Line) -> Option<Change>
    ensures { result ≡ change_by own (kept_of tables.now (line.now).origin.0) line.now }
{
    let kept = tables.numbers(line.origin);
    let got = line.got();
    if line.lo > kept.got {
        return None;
    }
    if own {
        if got < kept.forgot || got > kept.got || line.forgot < kept.retired {
            return None;
        }
        return Some(Change::CameRound {
            origin: line.origin,
            forgot: got,
            retired: line.forgot,
        });
    }
    if got < kept.got || line.forgot < kept.forgot || line.forgot > got {
        return None;
    }
    Some(Change::Receive {
        origin: line.origin,
        from: line.lo.max(kept.got),
        to: got,
        forgot: line.forgot,
    })
}

/// Adds a change, if there is one.
fn push_change(changes: &mut Vec<Change>, change: Option<Change>) -> Result<(), OutOfMemory>
    ensures { OnOk result ((changes.new).items ≡ (changes.old).items ++ cons_option change []) }
{
    if let Some(change) = change {
        changes.push(change)?;
    }
    Ok(())
}

/// What a packet from a sender changes at a member that takes it and doesn't wait, line by line: messages are
/// received of an origin for which the member doesn't answer, and have come round of one for which it does. A
/// line changes nothing that begins behind the member's last message, that would lower a number, or that would
/// have something forgotten that wasn't got. As `gm:handle_msg` of an `activity`.
pub fn plan(
    alloc: Global,
    packet: &Packet,
    tables: &Tables,
    view: &View,
    me: MemberId,
    sender: MemberId,
) -> Result<Vec<Change>, OutOfMemory>
    ensures { IfOk result (λ changes. changes.items
        ≡ changes_of (owned view.now me.0 sender.0) tables.now (packet.now).lines) }
{
    let mut changes = Vec::new(alloc);
    for line in packet.lines() {
        let own = owns(view, me, sender, line.origin);
        push_change(&mut changes, line_change(own, tables, line))?;
    }
    Ok(changes)
}
