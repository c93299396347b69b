//! What a packet brings a member, as copies.
ghost use Rattle.std.specs.Prelude.{◌≡◌, ◌+◌, ◌-◌, ◌^◌, ◌<◌, ◌≤◌, ◌++◌, ◌∷◌, [], length, Option, OnOk};
ghost use Rattle.std.specs.Prelude.{IfOk, IfSome};
ghost use Rattle.std.specs.Option.{option_copied};
ghost use Rattle.ring_rules.specs.Rows.{most_members};
ghost use Rattle.ring_rules.specs.Step.{is_owned};
ghost use Rattle.ring_rules.specs.Event.{version_refusal};
ghost use Rattle.activity.specs.Kept.{KeepsRows, kept_of};
ghost use Rattle.activity.specs.Packets.{line_of};
ghost use Rattle.activity.specs.Plan.{owns as owned, changes_of, AreReady};
ghost use Rattle.gm_member.specs.Packets.{packet_by_id};
ghost use Rattle.gm_member.specs.View.{all_kept};
ghost use Rattle.gm_member.specs.News.{line_news, taken_between, taken_at, news_below};

use crate::taken::Taken;
use crate::views::owns;
use activity::{Change, Line, Packet, Tables, line_change, plan};
use group_view::{MOST_MEMBERS, View};
use queue_core::Message;
use ring_names::{MemberId, OutOfMemory, Reason};
use std::alloc::Global;

/// Why a member whose view is of this version may not take the packet: it is of a newer one.
pub fn view_refusal(packet: &Packet, version: u32) -> Option<Reason>
    ensures { result ≡ version_refusal (packet.now).view version }
{
    if packet.view > version {
        return Some(Reason::ViewTooOld {
            need: packet.view,
            have: version,
        });
    }
    None
}

fn push_news(
    out: &mut Vec<Taken>,
    p: usize,
    lo: u64,
    messages: &[Message],
    k: u64,
) -> Result<(), OutOfMemory>
    requires place { p < 2 ^ 32 - 1 }
    requires behind { lo ≤ k }
    requires within { k - lo < length messages.now }
    requires few { k < 2 ^ 63 }
    ensures { OnOk result (out.new.items ≡ out.old.items ++ taken_at p lo messages.now k ∷ []) }
{
    let message = messages[(k - lo) as usize].copy()?;
    let taken = Taken {
        origin: MemberId(p as u32 + 1),
        number: k + 1,
        message,
    };
    out.push(taken)?;
    Ok(())
}

/// The messages of a line that are numbered `from` + 1 to `to`.
fn push_between(
    out: &mut Vec<Taken>,
    p: usize,
    line: &Line,
    from: u64,
    to: u64,
) -> Result<(), OutOfMemory>
    requires place { p < 2 ^ 32 - 1 }
    requires behind { line.now.lo ≤ from }
    requires within { to ≤ line.now.lo + length line.now.messages }
    requires few { line.now.lo + length line.now.messages ≤ 2 ^ 63 }
    ensures { OnOk result (out.new.items ≡ out.old.items ++ taken_between p line.now.lo line.now.messages from to) }
{
    if from >= to {
        return Ok(());
    }
    for k in from..to {
        push_news(out, p, line.lo, line.messages.as_slice(), k)?;
    }
    Ok(())
}

/// What the line of an origin, whose place is given, brings to a member with these tables.
fn push_line(
    out: &mut Vec<Taken>,
    own: bool,
    p: usize,
    tables: &Tables,
    line: &Line,
) -> Result<(), OutOfMemory>
    requires place { p < 2 ^ 32 - 1 }
    requires origin { line.now.origin.0 ≡ p + 1 }
    ensures { OnOk result (out.new.items
        ≡ out.old.items ++ line_news own p (kept_of tables.now (p + 1)) (Option.Some line.now)) }
{
    let _bound = line.got();
    match line_change(own, tables, line) {
        Some(Change::Receive { from, to, .. }) => push_between(out, p, line, from, to),
        Some(Change::CameRound { .. }) | None => Ok(()),
    }
}

/// The line of an origin.
fn line_for(lines: &[Line], origin: MemberId) -> Option<&Line>
    ensures line { option_copied result ≡ line_of lines.now origin.0 }
    ensures origin { IfSome result (λ line. line.now.origin.0 ≡ origin.0) }
{
    lines.iter().find(|line| line.origin == origin)
}

/// What a packet from a sender brings of the origin at a place.
fn push_origin(
    out: &mut Vec<Taken>,
    p: usize,
    tables: &Tables,
    packet: &Packet,
    view: &View,
    id: MemberId,
    from: MemberId,
) -> Result<(), OutOfMemory>
    requires { p < most_members }
    ensures { OnOk result (out.new.items ≡ out.old.items
        ++ line_news (is_owned view.now id.0 from.0 (p + 1)) p (kept_of tables.now (p + 1))
        (line_of (packet.now).lines (p + 1))) }
{
    match line_for(packet.lines(), MemberId(p as u32 + 1)) {
        None => Ok(()),
        Some(line) => push_line(out, owns(view, id, from, p), p, tables, line),
    }
}

/// All that a packet from a sender brings, in order of origin and number.
fn packet_news(
    alloc: Global,
    packet: &Packet,
    tables: &Tables,
    view: &View,
    id: MemberId,
    from: MemberId,
) -> Result<Vec<Taken>, OutOfMemory>
    ensures { IfOk result (λ v. v.items
        ≡ news_below most_members (λ p. is_owned view.now id.0 from.0 (p + 1)) (all_kept tables.now)
        (packet_by_id packet.now).lines) }
{
    let mut out = Vec::new(alloc);
    for p in 0..MOST_MEMBERS {
        push_origin(&mut out, p, tables, packet, view, id, from)?;
    }
    Ok(out)
}

/// What a packet from a sender brings to a member with these tables, and what it changes there, for which there is room
/// then.
pub(crate) fn arrivals(
    alloc: Global,
    packet: &Packet,
    tables: &mut Tables,
    view: &View,
    id: MemberId,
    from: MemberId,
) -> Result<(Vec<Taken>, Vec<Change>), OutOfMemory>
    ensures news { IfOk result (λ r. r.0.items
        ≡ news_below most_members (λ p. is_owned view.now id.0 from.0 (p + 1)) (all_kept tables.old)
        (packet_by_id packet.now).lines) }
    ensures plan { IfOk result (λ r. r.1.items
        ≡ changes_of (owned view.now id.0 from.0) tables.new (packet.now).lines) }
    ensures room { IfOk result (λ r. AreReady tables.new r.1.items) }
    ensures kept { KeepsRows tables.old tables.new }
{
    let news = packet_news(alloc, packet, tables, view, id, from)?;
    let changes = plan(alloc, packet, tables, view, id, from)?;
    tables.make_room(&changes)?;
    Ok((news, changes))
}
