//! When an event may happen, of what concerns views.
ghost use Rattle.std.specs.Prelude.{◌≡◌, ◌<◌, suc, length, is_some, Some, None};
ghost use Rattle.ring_names.specs.declared.reason.Reason.TheVariants as reason;
ghost use Rattle.ring_rules.specs.Refusal.{answer_of, refuse_if, or_else};
ghost use Rattle.ring_rules.specs.Machine.{member_at};
ghost use Rattle.ring_rules.specs.Event.{id_of as the_id, of_member, up_refusal, pick_refusal, mark_refusal};
ghost use Rattle.ring_rules.specs.Event.{refresh_refusal, is_still_taken as still_taken};
ghost use Rattle.ring_rules.specs.Event.{admit_refusal, erase_refusal, synced_refusal, missing_refusal};
ghost use Rattle.ring_world.specs.Placed.{IsPlacedAt, IsUpAt};
ghost use Rattle.ring_world.specs.Shows.{world_of};

use crate::conditions::is_known;
use crate::neighbours::{
    at_door, id_at, is_neighbour, left_neighbour, newest, newest_view, view_at_place,
};
use crate::places::place_in;
use crate::state::Ring;
use group_view::MOST_MEMBERS;
use ring_names::{MemberId, Name, Reason};

/// Whether the member at a place may pick the oldest link at its door.
#[tactic(auto, using(crate::proofs::code::ShownParts::read_member, crate::proofs::code::ShownParts::read_link))]
fn may_pick_at_door(ring: &Ring, place: usize) -> Result<(), Reason>
    requires { IsUpAt ring.now place }
    ensures { result ≡ answer_of (pick_refusal (world_of ring.now) (suc place)) }
{
    match at_door(ring, place) {
        None => Err(Reason::NoLinkAtDoor),
        Some(s) => is_known(ring.links[s].opened, ring.members[place].version),
    }
}

/// Whether it may pick a link.
#[tactic(auto, using(crate::proofs::code::ShownParts::read_member))]
pub(crate) fn may_pick(ring: &Ring, place: usize) -> Result<(), Reason>
    requires { IsPlacedAt ring.now place }
    ensures { result ≡ answer_of (up_refusal (world_of ring.now) (suc place)
        (or_else (refuse_if (is_some (member_at (world_of ring.now) (suc place)).current)
        reason.HasCurrentLink) (pick_refusal (world_of ring.now) (suc place)))) }
{
    ring.members[place].phase.is_up()?;
    if ring.members[place].current.is_some() {
        return Err(Reason::HasCurrentLink);
    }
    may_pick_at_door(ring, place)
}

/// Whether it still takes from its left neighbour of that id, or could.
#[tactic(auto, using(crate::proofs::code::ShownParts::read_member))]
fn is_still_taken(ring: &Ring, place: usize, dead: u32) -> bool
    requires { IsUpAt ring.now place }
    ensures { result ≡ still_taken (world_of ring.now) (suc place) dead }
{
    dead == left_neighbour(ring, place)
        && (ring.members[place].current.is_some() || at_door(ring, place).is_some())
}

/// Whether it may have the member at another place marked dead.
#[tactic(auto, using(crate::proofs::code::ShownParts::read_member))]
fn may_mark_at(ring: &Ring, place: usize, dead: usize) -> Result<(), Reason>
    requires up { IsUpAt ring.now place }
    requires dead { dead < length ring.now.members.items }
    ensures { result ≡ answer_of (mark_refusal (world_of ring.now) (suc place) (suc dead)) }
{
    let id = id_at(dead);
    if !is_neighbour(ring, place, id) {
        return Err(Reason::NotNeighbour);
    }
    if !newest_view(ring).is_live(MemberId(id)) {
        return Err(Reason::AlreadyDead);
    }
    if !ring.members[dead].phase.is_stopped() {
        return Err(Reason::NotStopped);
    }
    if is_still_taken(ring, place, id) {
        return Err(Reason::LinkNotEnded);
    }
    Ok(())
}

/// Whether it may have the member of a name marked dead.
#[tactic(auto, using(crate::proofs::code::ShownParts::read_member))]
pub(crate) fn may_mark(ring: &Ring, place: usize, dead: &Name) -> Result<(), Reason>
    requires { IsPlacedAt ring.now place }
    ensures { result ≡ answer_of (up_refusal (world_of ring.now) (suc place)
        (of_member (the_id (world_of ring.now) dead.now)
        (mark_refusal (world_of ring.now) (suc place)))) }
{
    ring.members[place].phase.is_up()?;
    match place_in(ring, dead) {
        None => Err(Reason::UnknownMember),
        Some(dead) => may_mark_at(ring, place, dead),
    }
}

/// Whether it may have the origin at another place erased.
#[tactic(auto, using(crate::proofs::code::ShownParts::read_member))]
fn may_erase_at(ring: &Ring, place: usize, origin: usize) -> Result<(), Reason>
    requires up { IsUpAt ring.now place }
    requires origin { origin < length ring.now.members.items }
    ensures { result ≡ answer_of (erase_refusal (world_of ring.now) (suc place) (suc origin)) }
{
    let id = id_at(origin);
    if !newest_view(ring).is_dead(MemberId(id)) {
        return Err(Reason::NotDead);
    }
    if !view_at_place(ring, place).is_alias(MemberId(id_at(place)), MemberId(id)) {
        return Err(Reason::NotOwner);
    }
    let member = &ring.members[place];
    let (got, _) = member.got_and_forgot(id as usize);
    let retired = member.retired(id as usize);
    if got != retired {
        return Err(Reason::NotRetired { got, retired });
    }
    Ok(())
}

/// Whether it may have the origin of a name erased.
#[tactic(auto, using(crate::proofs::code::ShownParts::read_member))]
pub(crate) fn may_erase(ring: &Ring, place: usize, origin: &Name) -> Result<(), Reason>
    requires { IsPlacedAt ring.now place }
    ensures { result ≡ answer_of (up_refusal (world_of ring.now) (suc place)
        (of_member (the_id (world_of ring.now) origin.now)
        (erase_refusal (world_of ring.now) (suc place)))) }
{
    ring.members[place].phase.is_up()?;
    match place_in(ring, origin) {
        None => Err(Reason::UnknownMember),
        Some(origin) => may_erase_at(ring, place, origin),
    }
}

/// Whether it may admit one of a name.
#[tactic(auto, using(crate::proofs::code::ShownParts::read_member))]
pub(crate) fn may_admit(ring: &Ring, place: usize, name: &Name) -> Result<(), Reason>
    requires { IsPlacedAt ring.now place }
    ensures { result ≡ answer_of (up_refusal (world_of ring.now) (suc place)
        (admit_refusal (world_of ring.now) name.now)) }
{
    ring.members[place].phase.is_up()?;
    let view = newest_view(ring);
    if view.find(name).is_some() {
        return Err(Reason::NameTaken);
    }
    if view.entries.as_slice().len() >= MOST_MEMBERS {
        return Err(Reason::TooManyMembers);
    }
    Ok(())
}

/// Whether it may read the view of a version.
#[tactic(auto, using(crate::proofs::code::ShownParts::read_member))]
pub(crate) fn may_refresh(ring: &Ring, place: usize, version: u32) -> Result<(), Reason>
    requires { IsPlacedAt ring.now place }
    ensures { result ≡ answer_of (up_refusal (world_of ring.now) (suc place)
        (refresh_refusal (world_of ring.now) (suc place) version)) }
{
    ring.members[place].phase.is_up()?;
    let held = ring.members[place].version;
    let newest = newest(ring);
    if version < held || newest < version {
        return Err(Reason::ViewOutOfRange {
            asked: version,
            held,
            newest,
        });
    }
    Ok(())
}

/// Whether a mirror that lacks so many messages lacks none.
fn lacks_nothing(missing: Option<u64>) -> Result<(), Reason>
    ensures { result ≡ answer_of (missing_refusal missing) }
{
    match missing {
        Some(0) => Ok(()),
        Some(_) | None => Err(Reason::StillMissing { missing }),
    }
}

/// Whether the member at a place may be registered as synchronised.
#[tactic(auto, using(crate::proofs::code::ShownParts::read_member, crate::proofs::code::Found::few_members))]
pub(crate) fn may_sync(ring: &Ring, place: usize) -> Result<(), Reason>
    requires { IsPlacedAt ring.now place }
    ensures { result ≡ answer_of (up_refusal (world_of ring.now) (suc place)
        (synced_refusal (world_of ring.now) (suc place))) }
{
    let member = &ring.members[place];
    member.phase.is_up()?;
    if newest_view(ring).is_synced(MemberId(id_at(place))) {
        return Err(Reason::AlreadySynced);
    }
    lacks_nothing(member.mirror.missing())
}
