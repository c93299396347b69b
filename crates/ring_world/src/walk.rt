//! The walk of an origin round the ring.
ghost use Rattle.std.specs.Prelude.{◌≡◌, ◌<◌, ◌≤◌, ◌+◌, ◌++◌, ◌∷◌, [], suc, true, false, ◌||◌, nat_eq};
ghost use Rattle.std.specs.Prelude.{length, map, reverse, take, drop, position, Option, Some, None};
ghost use Rattle.std.specs.Prelude.{option_map, IfSome, IfNone, IfOk, OnOk, All};
ghost use Rattle.std.specs.List.{filter, flat_map};
ghost use Rattle.group_view.specs.Ring.{is_in, rotated};
ghost use Rattle.group_view.specs.View.{ids as ids_of};
ghost use Rattle.group_view.specs.Parts.{place_of as the_place};
ghost use Rattle.ring_rules.specs.View.{between};
ghost use Rattle.ring_rules.specs.Machine.{row_at, member_at};
ghost use Rattle.ring_rules.specs.Machine.{oldest as the_oldest};
ghost use Rattle.ring_rules.specs.Machine.{runs as runs_at, newest as the_newest, ring as ring_ids};
ghost use Rattle.ring_rules.specs.OpenLinks.{is_open as open_is, passes as the_test};
ghost use Rattle.ring_rules.specs.OpenLinks.{number as the_number};
ghost use Rattle.ring_rules.specs.OpenLinks.{is_place as place_is, packets_of as the_packets, round_trip};
ghost use Rattle.ring_rules.specs.OpenLinks.{running_on as all_running_on, owner as the_owner, the_walk};
ghost use Rattle.ring_rules.specs.OpenLinks.{walk_of as the_walk_of, walk_named};
ghost use Rattle.ring_rules.specs.Event.{id_of as the_id};
ghost use Rattle.ring_world.specs.Placed.{IsPlaced, IsPlacedAt, IsRunningAt};
ghost use Rattle.ring_world.specs.declared.walk.Part.TheVariants as part;
ghost use Rattle.ring_world.specs.declared.walk.Round.TheVariants as kind;
ghost use Rattle.ring_world.specs.Shows.{world_of, member_of, link_of, packet_of};
ghost use Rattle.ring_world.specs.Walking.{reads, reads_row, says, counts, said, said_on, stop_says, is_from_left};

use crate::neighbours::{id_at, left_in, newest_view, view_of};
use crate::places::place_in;
use crate::plain_link::{Packet, PlainLink};
use crate::plain_member::PlainMember;
use crate::state::Ring;
use group_view::{Entry, View};
use ring_names::{MemberId, Name, OutOfMemory};
use ring_rules::{Numbers, Phase, numbers_at};
use std::alloc::Global;

/// Which numbers a round of the walk reads.
#[derive(Clone, Copy)]
pub(crate) enum Round {
    Got,
    Forgot,
}

/// Which of the links that are open to a member count.
#[derive(Clone, Copy)]
pub(crate) enum Part {
    Every,
    Early,
    Late,
}

/// What the walk reads at a stop: the numbers of a round, on the links that count, of an origin.
#[derive(Clone, Copy)]
pub(crate) struct Reading {
    round: Round,
    part: Part,
    origin: u32,
}

impl Round {
    /// Of what a packet says.
    fn of_numbers(self, numbers: Numbers) -> u64
        ensures { result ≡ reads self numbers }
    {
        match self {
            Round::Got => numbers.got,
            Round::Forgot => numbers.forgot,
        }
    }

    /// Of what a member knows.
    fn of_member(self, member: &PlainMember, origin: usize) -> u64
        ensures { result ≡ reads_row self (row_at (member_of member.now) origin) }
    {
        let (got, forgot) = member.got_and_forgot(origin);
        match self {
            Round::Got => got,
            Round::Forgot => forgot,
        }
    }

    /// Of a packet.
    fn of_packet(self, packet: &Packet, origin: usize) -> u64
        ensures { result ≡ says self origin (packet_of packet.now) }
    {
        self.of_numbers(numbers_at(&packet.numbers, origin))
    }

    /// Of the oldest packet of a link.
    fn of_oldest(self, link: &PlainLink, origin: usize) -> u64
        ensures { result ≡ says self origin (the_oldest (link_of link.now)) }
    {
        match link.packets.first() {
            None => 0,
            Some(packet) => self.of_packet(packet, origin),
        }
    }
}

/// The number of the member at a place: a waiting one has that of its first packet.
#[tactic(auto, using(crate::proofs::code::Rules::reading, crate::proofs::code::Found::current_within))]
fn own_number(ring: &Ring, round: Round, origin: usize, place: usize) -> u64
    requires { IsPlacedAt ring.now place }
    ensures { result ≡ the_number (reads round) (reads_row round) (world_of ring.now) origin (suc place) }
{
    let member = &ring.members[place];
    if !matches!(member.phase, Phase::Waiting) {
        return round.of_member(member, origin);
    }
    match member.current {
        None => 0,
        Some(current) => round.of_oldest(&ring.links[current], origin),
    }
}

/// Whether a link comes from the left neighbour of that view, which it was already when the link opened.
fn comes_from_left(view: &View, id: u32, link: &PlainLink) -> bool
    ensures { result ≡ is_from_left view.now id (link_of link.now) }
{
    link.sender == left_in(view, id) && view.since_of(MemberId(id)) <= link.opened
}

/// Whether a link passes the test at a running member's door.
fn passes(ring: &Ring, place: usize, link: &PlainLink) -> bool
    requires runs { IsRunningAt ring.now place }
    requires opened { link.now.opened ≤ the_newest (world_of ring.now) }
    ensures { result ≡ the_test (world_of ring.now) (suc place) (link_of link.now) }
{
    let version = ring.members[place].version.max(link.opened);
    comes_from_left(view_of(&ring.views, version), id_at(place), link)
}

/// Whether a member takes from the link of that place.
fn is_current(member: &PlainMember, s: usize) -> bool
    ensures { result ≡ place_is (member_of member.now).current s }
{
    match member.current {
        None => false,
        Some(current) => current == s,
    }
}

/// Whether a link is open to the running member at a place.
#[tactic(auto, using(crate::proofs::code::ShownParts::read_member, crate::proofs::code::ShownParts::read_link))]
pub(crate) fn is_open(ring: &Ring, place: usize, s: usize) -> bool
    requires runs { IsRunningAt ring.now place }
    requires link { s < length ring.now.links.items }
    ensures { result ≡ open_is (world_of ring.now) (suc place) s }
{
    if is_current(&ring.members[place], s) {
        return true;
    }
    let link = &ring.links[s];
    link.receiver == id_at(place) && !link.over && passes(ring, place, link)
}

/// Whether what comes from a sender to the owner is late.
fn is_late(view: &View, origin: u32, id: u32, sender: u32) -> bool
    ensures { result
        ≡ (nat_eq origin id || (is_in origin (between view.now sender id) || nat_eq sender id)) }
{
    origin == id
        || view.is_between(MemberId(sender), MemberId(origin), MemberId(id))
        || sender == id
}

/// Whether a link that is open to a member counts.
#[tactic(auto, using(crate::proofs::code::ShownParts::read_link))]
fn is_counted(ring: &Ring, part: Part, origin: u32, place: usize, s: usize) -> bool
    requires placed { IsPlacedAt ring.now place }
    requires link { s < length ring.now.links.items }
    ensures { result ≡ counts part (world_of ring.now) origin (suc place) s }
{
    let view = newest_view(ring);
    let sender = ring.links[s].sender;
    match part {
        Part::Every => true,
        Part::Early => !is_late(view, origin, id_at(place), sender),
        Part::Late => is_late(view, origin, id_at(place), sender),
    }
}

/// The packets that count of a link that is open to a member: a waiting one has its first packet's numbers.
#[tactic(auto, using(crate::proofs::code::ShownParts::read_member, crate::proofs::code::ShownParts::read_link))]
fn packets_of(ring: &Ring, place: usize, s: usize) -> &[Packet]
    requires place { place < length ring.now.members.items }
    requires link { s < length ring.now.links.items }
    ensures { map packet_of result.now ≡ the_packets (world_of ring.now) (suc place) s }
{
    let member = &ring.members[place];
    let packets = ring.links[s].packets.as_slice();
    if packets.is_empty() || !matches!(member.phase, Phase::Waiting) || !is_current(member, s) {
        return packets;
    }
    let (_, behind) = packets.split_at(1);
    behind
}

/// Adds what packets say, the newest first.
fn push_packets(
    walk: &mut Vec<u64>,
    round: Round,
    origin: usize,
    packets: &[Packet],
) -> Result<(), OutOfMemory>
    ensures { OnOk result (walk.new.items
        ≡ walk.old.items ++ map (says round origin) (reverse (map packet_of packets.now))) }
{
    for k in (0..packets.len()).rev() {
        walk.push(round.of_packet(&packets[k], origin))?;
    }
    Ok(())
}

/// Adds what the packets of a link say, where it is open to a member and counts.
fn push_link(
    walk: &mut Vec<u64>,
    ring: &Ring,
    of: Reading,
    place: usize,
    s: usize,
) -> Result<(), OutOfMemory>
    requires runs { IsRunningAt ring.now place }
    requires link { s < length ring.now.links.items }
    ensures { OnOk result (walk.new.items ≡ walk.old.items
        ++ said_on of.round of.part (world_of ring.now) of.origin (suc place)
        (filter (open_is (world_of ring.now) (suc place)) (s ∷ []))) }
{
    if is_open(ring, place, s) && is_counted(ring, of.part, of.origin, place, s) {
        push_packets(
            walk,
            of.round,
            of.origin as usize,
            packets_of(ring, place, s),
        )?;
    }
    Ok(())
}

/// Adds what the packets say that are open to a member, the newest link first.
fn push_open(walk: &mut Vec<u64>, ring: &Ring, of: Reading, place: usize) -> Result<(), OutOfMemory>
    requires { IsRunningAt ring.now place }
    ensures { OnOk result (walk.new.items
        ≡ walk.old.items ++ said of.round of.part (world_of ring.now) of.origin (suc place)) }
{
    for s in (0..ring.links.len()).rev() {
        push_link(walk, ring, of, place, s)?;
    }
    Ok(())
}

/// Adds what is open to a member, and its own number.
fn push_stop(walk: &mut Vec<u64>, ring: &Ring, of: Reading, place: usize) -> Result<(), OutOfMemory>
    requires { IsRunningAt ring.now place }
    ensures { OnOk result (walk.new.items
        ≡ walk.old.items ++ stop_says of.round of.part (world_of ring.now) of.origin (suc place)) }
{
    push_open(walk, ring, of, place)?;
    walk.push(own_number(ring, of.round, of.origin as usize, place))?;
    Ok(())
}

/// Adds the stops of further members.
fn push_stops(
    walk: &mut Vec<u64>,
    ring: &Ring,
    round: Round,
    origin: u32,
    further: &[usize],
) -> Result<(), OutOfMemory>
    requires placed { IsPlaced (world_of ring.now) }
    requires within { All (λ place. place < length ring.now.members.items) further.now }
    requires running { All (λ place. runs_at (world_of ring.now) (suc place) ≡ true) further.now }
    ensures { OnOk result (walk.new.items
        ≡ walk.old.items ++ flat_map (λ place. stop_says round part.Every (world_of ring.now) origin (suc place))
        further.now) }
{
    for place in further {
        let every = Reading {
            round,
            part: Part::Every,
            origin,
        };
        push_stop(walk, ring, every, *place)?;
    }
    Ok(())
}

/// Adds a round over these members: the first one's early packets and its number, the further members, and the
/// first one's late packets.
fn push_round(
    walk: &mut Vec<u64>,
    ring: &Ring,
    round: Round,
    origin: u32,
    stops: &[usize],
) -> Result<(), OutOfMemory>
    requires placed { IsPlaced (world_of ring.now) }
    requires within { All (λ place. place < length ring.now.members.items) stops.now }
    requires running { All (λ place. runs_at (world_of ring.now) (suc place) ≡ true) stops.now }
    ensures { OnOk result (walk.new.items
        ≡ walk.old.items ++ round_trip (reads round) (reads_row round) (world_of ring.now) origin
        (map suc stops.now)) }
{
    if let Some((owner, further)) = stops.split_first() {
        let early = Reading {
            round,
            part: Part::Early,
            origin,
        };
        let late = Reading {
            part: Part::Late,
            ..early
        };
        push_stop(walk, ring, early, *owner)?;
        push_stops(walk, ring, round, origin, further)?;
        push_open(walk, ring, late, *owner)?;
    }
    Ok(())
}

/// The place of the member of an id, where it runs.
pub(crate) fn running_place(ring: &Ring, id: usize) -> Option<usize>
    ensures some { IfSome result (λ place. suc place ≡ id) }
    ensures runs { IfSome result (λ place. runs_at (world_of ring.now) id ≡ true) }
    ensures none { IfNone result (runs_at (world_of ring.now) id ≡ false) }
{
    if id == 0 || id > ring.members.len() {
        return None;
    }
    if ring.members[id - 1].phase.is_stopped() {
        return None;
    }
    Some(id - 1)
}

/// Adds the places of those entries whose members run.
fn push_running(running: &mut Vec<usize>, ring: &Ring, entries: &[Entry]) -> Result<(), OutOfMemory>
    ensures { OnOk result (map suc running.new.items
        ≡ map suc running.old.items ++ filter (runs_at (world_of ring.now)) (ids_of entries.now)) }
{
    for entry in entries {
        if let Some(place) = running_place(ring, entry.id.0 as usize) {
            running.push(place)?;
        }
    }
    Ok(())
}

fn place_of(entries: &[Entry], id: u32) -> Option<usize>
    ensures { result ≡ position (λ entry. nat_eq entry.id.0 id) entries.now }
{
    entries.iter().position(|entry| entry.id.0 == id)
}

/// The entries before that of an id, and those from it on: all and none, where it has none.
fn cut_at(entries: &[Entry], id: u32) -> (&[Entry], &[Entry])
    ensures before { result.0.now ≡ take (the_place entries.now id) entries.now }
    ensures from { result.1.now ≡ drop (the_place entries.now id) entries.now }
{
    let place = place_of(entries, id).unwrap_or(entries.len());
    entries.split_at(place)
}

/// The places of the running members among entries, from that of an id rightwards.
fn running_among(
    alloc: Global,
    ring: &Ring,
    entries: &[Entry],
    id: u32,
) -> Result<Vec<usize>, OutOfMemory>
    ensures { IfOk result (λ v. map suc v.items
        ≡ filter (runs_at (world_of ring.now)) (rotated id (ids_of entries.now))) }
{
    let (before, from) = cut_at(entries, id);
    let mut running = Vec::new(alloc);
    push_running(&mut running, ring, from)?;
    push_running(&mut running, ring, before)?;
    Ok(running)
}

/// The entries of the newest view.
fn newest_entries(ring: &Ring) -> &[Entry]
    requires placed { IsPlaced (world_of ring.now) }
    ensures { ids_of result.now ≡ ring_ids (world_of ring.now) }
{
    newest_view(ring).entries.as_slice()
}

/// The places of the running members, from the entry of an id rightwards in the newest view.
fn running_on(alloc: Global, ring: &Ring, id: u32) -> Result<Vec<usize>, OutOfMemory>
    requires placed { IsPlaced (world_of ring.now) }
    ensures value { IfOk result (λ v. map suc v.items ≡ all_running_on (world_of ring.now) id) }
    ensures within { IfOk result (λ v. All (λ place. place < length ring.now.members.items) v.items) }
    ensures running { IfOk result (λ v. All (λ place. runs_at (world_of ring.now) (suc place) ≡ true) v.items) }
{
    let running = running_among(alloc, ring, newest_entries(ring), id)?;
    Ok(running)
}

/// The place of the owner of an origin.
fn owner_of(alloc: Global, ring: &Ring, origin: u32) -> Result<Option<usize>, OutOfMemory>
    requires placed { IsPlaced (world_of ring.now) }
    ensures owner { IfOk result (λ found. option_map suc found ≡ the_owner (world_of ring.now) origin) }
    ensures within { IfOk result (λ found. IfSome found (λ place. place < length ring.now.members.items)) }
{
    let running = running_on(alloc, ring, origin)?;
    Ok(running.first().copied())
}

/// Adds the two rounds of these members, and how much of the origin the first of them has retired.
fn push_rounds(
    walk: &mut Vec<u64>,
    ring: &Ring,
    origin: u32,
    owner: usize,
    stops: &[usize],
) -> Result<(), OutOfMemory>
    requires placed { IsPlacedAt ring.now owner }
    requires within { All (λ place. place < length ring.now.members.items) stops.now }
    requires running { All (λ place. runs_at (world_of ring.now) (suc place) ≡ true) stops.now }
    ensures { OnOk result (walk.new.items
        ≡ walk.old.items ++ (round_trip (reads kind.Got) (reads_row kind.Got) (world_of ring.now) origin
        (map suc stops.now)
        ++ (round_trip (reads kind.Forgot) (reads_row kind.Forgot) (world_of ring.now) origin (map suc stops.now)
        ++ (row_at (member_at (world_of ring.now) (suc owner)) origin).retired ∷ []))) }
{
    push_round(walk, ring, Round::Got, origin, stops)?;
    push_round(walk, ring, Round::Forgot, origin, stops)?;
    walk.push(ring.members[owner].retired(origin as usize))?;
    Ok(())
}

/// Adds the walk from this owner on.
fn push_walk(
    alloc: Global,
    walk: &mut Vec<u64>,
    ring: &Ring,
    origin: u32,
    owner: usize,
) -> Result<(), OutOfMemory>
    requires { IsPlacedAt ring.now owner }
    ensures { OnOk result (walk.new.items
        ≡ walk.old.items ++ the_walk_of (world_of ring.now) origin (Some (suc owner))) }
{
    let stops = running_on(alloc, ring, id_at(owner))?;
    push_rounds(walk, ring, origin, owner, &stops)?;
    Ok(())
}

/// The walk of the origin of an id.
pub(crate) fn walk_of(alloc: Global, ring: &Ring, origin: u32) -> Result<Vec<u64>, OutOfMemory>
    requires placed { IsPlaced (world_of ring.now) }
    ensures { IfOk result (λ v. v.items ≡ the_walk (world_of ring.now) origin) }
{
    let mut walk = Vec::new(alloc);
    if let Some(owner) = owner_of(alloc, ring, origin)? {
        push_walk(alloc, &mut walk, ring, origin, owner)?;
    }
    Ok(walk)
}

/// The walk of the origin of a name.
pub(crate) fn walk_of_name(alloc: Global, ring: &Ring, of: &Name) -> Result<Vec<u64>, OutOfMemory>
    requires { IsPlaced (world_of ring.now) }
    ensures { IfOk result (λ walk. walk.items ≡ walk_named (world_of ring.now) (the_id (world_of ring.now) of.now)) }
{
    match place_in(ring, of) {
        None => Ok(Vec::new(alloc)),
        Some(place) => walk_of(alloc, ring, id_at(place)),
    }
}
