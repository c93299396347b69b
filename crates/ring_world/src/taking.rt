//! A member takes the oldest packet from the link that it takes from: its first, where it waits, or another.
ghost use Rattle.std.specs.Prelude.{◌≡◌, ◌<◌, ◌≤◌, ◌+◌, ◌∷◌, suc, false, length, map, slice_set, slice_index_or};
ghost use Rattle.std.specs.Prelude.{IfOk, OnOk, OnErr};
ghost use Rattle.std.specs.List.{range_with_len};
ghost use Rattle.group_view.specs.Change.{most_entries};
ghost use Rattle.ring_rules.specs.Refusal.{is_empty};
ghost use Rattle.ring_rules.specs.Machine.{link_at, no_member, row_at, oldest};
ghost use Rattle.ring_rules.specs.Step.{is_owned as owned_is, taken, begun, popped, take_from, begin_from};
ghost use Rattle.ring_rules.specs.Rows.{brought};
ghost use Rattle.ring_world.specs.Placed.{IsUpAt, IsRunningAt};
ghost use Rattle.ring_world.specs.Shows.{world_of, member_of, member_in, link_of, packet_of, news_of as the_news};
ghost use Rattle.ring_world.specs.Shows.{news_at};

use crate::log::messages_between;
use crate::neighbours::{id_at, view_of};
use crate::plain_link::{Packet, PlainLink};
use crate::plain_member::{Brought, PlainMember};
use crate::state::Ring;
use group_view::View;
use queue_core::Message;
use ring_names::{MemberId, OutOfMemory};
use ring_rules::{Numbers, numbers_at};
use std::alloc::Global;

/// Whether a member answers for an origin against a sender: it is the member, or stands between the two.
fn is_owned(view: &View, id: u32, sender: u32, origin: u32) -> bool
    ensures { result ≡ owned_is view.now id sender origin }
{
    origin == id || view.is_between(MemberId(sender), MemberId(origin), MemberId(id))
}

/// What a packet brings of an origin of this log, beside how much of it the taker has got.
fn messages_for(
    alloc: Global,
    own: bool,
    log: &[Message],
    member: &PlainMember,
    origin: usize,
    numbers: Numbers,
) -> Result<Vec<Message>, OutOfMemory>
    ensures { IfOk result (λ v. v.items
        ≡ brought own log.now (row_at (member_of member.now) origin) numbers) }
{
    if own {
        return Ok(Vec::new(alloc));
    }
    let (got, _) = member.got_and_forgot(origin);
    let news = messages_between(alloc, log, numbers.lo.max(got), numbers.got)?;
    Ok(news)
}

/// What it brings of the origin of an id; nobody has id 0, and a log without messages.
#[tactic(auto, using(crate::proofs::code::ShownParts::read_member, crate::proofs::code::Taken::nobody_brings))]
fn messages_of(
    alloc: Global,
    own: bool,
    members: &[PlainMember],
    place: usize,
    origin: usize,
    numbers: Numbers,
) -> Result<Vec<Message>, OutOfMemory>
    requires place { place < length members.now }
    requires origin { origin ≤ length members.now }
    ensures { IfOk result (λ v. v.items
        ≡ brought own (slice_index_or (no_member ∷ map member_of members.now) origin no_member).log
        (row_at (member_in members.now place) origin) numbers) }
{
    if origin == 0 {
        return Ok(Vec::new(alloc));
    }
    let member = &members[place];
    let log = &members[origin - 1].log;
    messages_for(alloc, own, log, member, origin, numbers)
}

/// What it brings of each origin, by id, and whether the taker answers for that.
fn all_news(
    alloc: Global,
    members: &[PlainMember],
    place: usize,
    view: &View,
    sender: u32,
    packet: &Packet,
) -> Result<Vec<Brought>, OutOfMemory>
    requires place { place < length members.now }
    requires few { length members.now < most_entries + 1 }
    ensures { IfOk result (λ v. map the_news v.items
        ≡ map (news_at view.now (no_member ∷ map member_of members.now) (suc place) sender
        (packet_of packet.now)) (range_with_len 0 (length members.now + 1))) }
{
    let id = id_at(place);
    let mut all = Vec::new(alloc);
    for origin in 0..members.len() + 1 {
        let own = is_owned(view, id, sender, origin as u32);
        let numbers = numbers_at(&packet.numbers, origin);
        let messages = messages_of(alloc, own, members, place, origin, numbers)?;
        all.push(Brought { own, messages })?;
    }
    Ok(all)
}

/// All that wants memory comes first, so that without it nothing has changed.
#[tactic(auto, using(crate::proofs::code::ShownParts::rewrite_member))]
fn take_packet(
    alloc: Global,
    members: &mut [PlainMember],
    place: usize,
    view: &View,
    link: &mut PlainLink,
) -> Result<(), OutOfMemory>
    requires within { place < length members.old }
    requires few { length members.old < most_entries + 1 }
    requires rows { length (member_in members.old place).rows ≤ suc (length members.old) }
    requires some { is_empty (link_of link.old).packets ≡ false }
    ensures members { OnOk result (map member_of members.new ≡ slice_set (map member_of members.old) place
        (taken (suc (length members.old)) (owned_is view.now (suc place) (link_of link.old).sender)
        (λ p. (slice_index_or (no_member ∷ map member_of members.old) p no_member).log)
        (member_in members.old place) (oldest (link_of link.old)))) }
    ensures link { OnOk result (link_of link.new ≡ popped (link_of link.old)) }
    ensures err_members { OnErr result (map member_of members.new ≡ map member_of members.old) }
    ensures err_link { OnErr result (link_of link.new ≡ link_of link.old) }
{
    link.reserve_grant()?;
    let sender = link.sender;
    let packet = link.oldest();
    let mut news = all_news(alloc, members, place, view, sender, packet)?;
    members[place].take(alloc, packet, &mut news)?;
    link.pop();
    Ok(())
}

/// The member at a place takes the oldest packet from its link.
#[tactic(auto, using(crate::proofs::code::Found::few_members))]
pub(crate) fn take(
    alloc: Global,
    ring: &mut Ring,
    place: usize,
    current: usize,
) -> Result<(), OutOfMemory>
    requires up { IsUpAt ring.old place }
    requires current { current < length ring.old.links.items }
    requires some { is_empty (link_at (world_of ring.old) current).packets ≡ false }
    ensures ok { OnOk result (world_of ring.new
        ≡ take_from (world_of ring.old) (suc place) current) }
    ensures err { OnErr result (world_of ring.new ≡ world_of ring.old) }
{
    let version = ring.members[place].version;
    let view = view_of(&ring.views, version);
    let link = &mut ring.links[current];
    take_packet(alloc, &mut ring.members, place, view, link)?;
    Ok(())
}

/// The first packet of a member that waits.
#[tactic(auto, using(crate::proofs::code::ShownParts::rewrite_member))]
fn take_first(
    alloc: Global,
    members: &mut [PlainMember],
    place: usize,
    link: &mut PlainLink,
) -> Result<(), OutOfMemory>
    requires within { place < length members.old }
    requires few { length members.old < most_entries + 1 }
    requires rows { length (member_in members.old place).rows ≤ suc (length members.old) }
    requires some { is_empty (link_of link.old).packets ≡ false }
    ensures members { OnOk result (map member_of members.new ≡ slice_set (map member_of members.old) place
        (begun (suc (length members.old)) (member_in members.old place) (oldest (link_of link.old)))) }
    ensures link { OnOk result (link_of link.new ≡ popped (link_of link.old)) }
    ensures err_members { OnErr result (map member_of members.new ≡ map member_of members.old) }
    ensures err_link { OnErr result (link_of link.new ≡ link_of link.old) }
{
    link.reserve_grant()?;
    let size = members.len() + 1;
    members[place].begin(alloc, size, link.oldest())?;
    link.pop();
    Ok(())
}

/// The waiting member at a place takes the oldest packet from its link: it hears nothing, and is up.
#[tactic(auto, using(crate::proofs::code::Found::few_members))]
pub(crate) fn begin(
    alloc: Global,
    ring: &mut Ring,
    place: usize,
    current: usize,
) -> Result<(), OutOfMemory>
    requires runs { IsRunningAt ring.old place }
    requires current { current < length ring.old.links.items }
    requires some { is_empty (link_at (world_of ring.old) current).packets ≡ false }
    ensures ok { OnOk result (world_of ring.new
        ≡ begin_from (world_of ring.old) (suc place) current) }
    ensures err { OnErr result (world_of ring.new ≡ world_of ring.old) }
{
    let link = &mut ring.links[current];
    take_first(alloc, &mut ring.members, place, link)?;
    Ok(())
}
