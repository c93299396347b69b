//! What is asked of a state.
ghost use Rattle.std.specs.Prelude.{◌≡◌, ◌<◌, suc, length, option_map, Some, None, IsSome, IfOk};
ghost use Rattle.queue_core.specs.Shown.{item_of};
ghost use Rattle.ring_rules.specs.Machine.{row_at, member_at};
ghost use Rattle.ring_rules.specs.Asked.{heard_at as the_heard, id_at as the_id_at, state_of as the_state};
ghost use Rattle.ring_rules.specs.Asked.{state_at as the_state_at, item_at as the_item_at};
ghost use Rattle.ring_rules.specs.Asked.{counts_of as the_counts};
ghost use Rattle.ring_rules.specs.Event.{id_of as the_id};
ghost use Rattle.ring_world.specs.Placed.{IsPlaced, IsPlacedAt};
ghost use Rattle.ring_world.specs.Shows.{world_of, member_of};

use crate::log::copied;
use crate::neighbours::id_at;
use crate::places::place_in;
use crate::plain_member::PlainMember;
use crate::state::Ring;
use queue_core::{Held, Message};
use queue_mirror::Mirror;
use ring_names::{MemberId, Name, OutOfMemory, Position};
use ring_rules::{Counts, MemberState, Phase, counts_in};
use std::alloc::Global;

/// What a member has heard of an origin: nothing where it has no row of it yet.
fn heard_from(member: &PlainMember, origin: usize) -> &[Message]
    ensures { result.now ≡ (row_at (member_of member.now) origin).heard }
{
    match member.rows.get(origin) {
        Some(row) => &row.heard,
        None => &[],
    }
}

/// What the member at a place has heard of that at another.
#[tactic(auto, using(crate::proofs::code::ShownParts::read_member, crate::proofs::code::Found::few_members))]
pub(crate) fn heard_at(ring: &Ring, place: usize, origin: usize) -> &[Message]
    requires placed { IsPlacedAt ring.now place }
    requires origin { origin < length ring.now.members.items }
    ensures { result.now ≡ (row_at (member_at (world_of ring.now) (suc place)) (suc origin)).heard }
{
    heard_from(&ring.members[place], id_at(origin) as usize)
}

/// The name of the member at a place.
#[tactic(auto, using(crate::proofs::code::ShownParts::read_member))]
pub(crate) fn name_at(ring: &Ring, place: usize) -> &Name
    requires { place < length ring.now.members.items }
    ensures { result.now ≡ (member_at (world_of ring.now) (suc place)).name }
{
    &ring.members[place].name
}

/// Its mirror of the queue.
#[tactic(auto, using(crate::proofs::code::ShownParts::read_member))]
pub(crate) fn mirror_at(ring: &Ring, place: usize) -> &Mirror
    requires { place < length ring.now.members.items }
    ensures { result.now.mirror ≡ (member_at (world_of ring.now) (suc place)).mirror }
{
    &ring.members[place].mirror
}

/// Where a member stands whose mirror lacks so many messages.
fn state_of(missing: Option<u64>, phase: Phase) -> MemberState
    ensures { result ≡ the_state missing phase }
{
    match phase {
        Phase::Waiting => MemberState::Waiting,
        Phase::Up => MemberState::Up { missing },
        Phase::Stopped => MemberState::Stopped,
    }
}

/// Where the member at a place stands.
#[tactic(auto, using(crate::proofs::code::ShownParts::read_member))]
pub(crate) fn state_at(ring: &Ring, place: usize) -> MemberState
    requires { IsPlacedAt ring.now place }
    ensures { result ≡ the_state_at (world_of ring.now) (Some (suc place)) }
{
    let member = &ring.members[place];
    state_of(member.mirror.missing(), member.phase)
}

/// The first item of its mirror at a position or above it, where it is up.
#[tactic(auto, using(crate::proofs::code::ShownParts::read_member))]
pub(crate) fn item_from(ring: &Ring, place: usize, from: Position) -> Option<Held<'_>>
    requires { place < length ring.now.members.items }
    ensures { option_map item_of result ≡ the_item_at (world_of ring.now) (Some (suc place)) from.0 }
{
    let member = &ring.members[place];
    match member.phase {
        Phase::Up => member.mirror.queue().item_from(from),
        Phase::Waiting | Phase::Stopped => None,
    }
}

/// A copy of what the member of one name has heard of that of another.
pub(crate) fn heard_named(
    alloc: Global,
    ring: &Ring,
    by: &Name,
    of: &Name,
) -> Result<Vec<Message>, OutOfMemory>
    requires placed { IsPlaced (world_of ring.now) }
    requires by { IsSome (the_id (world_of ring.now) by.now) }
    requires of { IsSome (the_id (world_of ring.now) of.now) }
    ensures { IfOk result (λ v. v.items ≡ the_heard (world_of ring.now) (the_id (world_of ring.now) by.now)
        (the_id (world_of ring.now) of.now)) }
{
    let Some(place) = place_in(ring, by) else {
        unreachable!()
    };
    let Some(origin) = place_in(ring, of) else {
        unreachable!()
    };
    let all = copied(alloc, heard_at(ring, place, origin))?;
    Ok(all)
}

/// The id of the member of a name.
#[tactic(auto, using(crate::proofs::code::Found::few_members))]
pub(crate) fn member_named(ring: &Ring, name: &Name) -> Option<MemberId>
    requires { IsPlaced (world_of ring.now) }
    ensures { result ≡ the_id_at (the_id (world_of ring.now) name.now) }
{
    let place = place_in(ring, name)?;
    Some(MemberId(id_at(place)))
}

/// What a member has published, whose id is given, and how much of it has come round.
fn counts_of(member: &PlainMember, id: usize) -> Counts
    ensures { result ≡ the_counts id (member_of member.now) }
{
    let (_, forgot) = member.got_and_forgot(id);
    counts_in(&member.log, forgot)
}

/// The same of the member at a place.
#[tactic(auto, using(crate::proofs::code::ShownParts::read_member, crate::proofs::code::Found::few_members))]
pub(crate) fn counts_at(ring: &Ring, place: usize) -> Counts
    requires { IsPlacedAt ring.now place }
    ensures { result ≡ the_counts (suc place) (member_at (world_of ring.now) (suc place)) }
{
    counts_of(&ring.members[place], id_at(place) as usize)
}
