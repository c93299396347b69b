//! Whether a ring rests.
ghost use Rattle.std.specs.Prelude.{◌≡◌, ◌↔◌, ◌<◌, ℕ, suc, true, false, length, All, IsTrue};
ghost use Rattle.ring_rules.specs.Machine.{link_at, runs as runs_at, row_at};
ghost use Rattle.ring_rules.specs.declared.phase.Phase.TheVariants.{Up};
ghost use Rattle.ring_rules.specs.OpenLinks.{is_open as open_is};
ghost use Rattle.ring_rules.specs.Event.{holds_nothing};
ghost use Rattle.ring_rules.specs.Quiet.{IsResting, IsSettled, RingRests, IsQuiet};
ghost use Rattle.ring_world.specs.Placed.{IsPlaced, IsRunningAt};
ghost use Rattle.ring_world.specs.Shows.{world_of, member_of};

use crate::neighbours::{id_at, newest, newest_view};
use crate::plain_member::PlainMember;
use crate::queue_rest::queue_rests;
use crate::state::Ring;
use crate::walk::{is_open, running_place};
use group_view::{Entry, Mark};
use ring_rules::Phase;

/// Whether no link holds an item that is open to the running member at a place.
#[tactic(auto, using(crate::proofs::code::ShownParts::read_link))]
fn has_nothing_to_take(ring: &Ring, place: usize) -> bool
    requires { IsRunningAt ring.now place }
    ensures { IsTrue result ↔ ((s : ℕ) → s < length ring.now.links.items
        → open_is (world_of ring.now) (suc place) s ≡ true
        → holds_nothing (link_at (world_of ring.now) s) ≡ true) }
{
    for s in 0..ring.links.len() {
        if is_open(ring, place, s) && !ring.links[s].holds_nothing() {
            return false;
        }
    }
    true
}

/// Whether all that a member published, whose id is given, has come round to it, and its acknowledgement too.
fn has_come_round(member: &PlainMember, id: usize) -> bool
    ensures { IsTrue result ↔ ((row_at (member_of member.now) id).retired ≡ length member.now.log.items) }
{
    member.retired(id) == member.log.len() as u64
}

/// Whether the running member at a place rests.
#[tactic(auto, using(crate::proofs::code::ShownParts::read_member, crate::proofs::code::Found::few_members))]
fn is_resting(ring: &Ring, place: usize) -> bool
    requires { IsRunningAt ring.now place }
    ensures { IsTrue result ↔ IsResting (world_of ring.now) (suc place) }
{
    let member = &ring.members[place];
    if !matches!(member.phase, Phase::Up) {
        return false;
    }
    if member.version != newest(ring) {
        return false;
    }
    if !has_come_round(member, id_at(place) as usize) {
        return false;
    }
    has_nothing_to_take(ring, place)
}

/// Whether every running member rests.
#[tactic(auto, using(crate::proofs::code::ShownParts::read_member))]
fn all_rest(ring: &Ring) -> bool
    requires { IsPlaced (world_of ring.now) }
    ensures { IsTrue result ↔ ((y : ℕ) → runs_at (world_of ring.now) y ≡ true
        → IsResting (world_of ring.now) y) }
{
    for place in 0..ring.members.len() {
        if ring.members[place].phase.is_running() && !is_resting(ring, place) {
            return false;
        }
    }
    true
}

/// Whether an entry isn't dead, and its member runs where it is live.
fn is_settled(ring: &Ring, entry: &Entry) -> bool
    ensures { IsTrue result ↔ IsSettled (world_of ring.now) entry.now }
{
    match entry.mark {
        Mark::Dead => false,
        Mark::Erased => true,
        Mark::Live => running_place(ring, entry.id.0 as usize).is_some(),
    }
}

/// Whether all these entries are settled.
fn are_settled(ring: &Ring, entries: &[Entry]) -> bool
    ensures { IsTrue result ↔ All (IsSettled (world_of ring.now)) entries.now }
{
    for entry in entries {
        if !is_settled(ring, entry) {
            return false;
        }
    }
    true
}

/// Whether every member has stopped.
#[tactic(auto, using(crate::proofs::code::ShownParts::read_member))]
fn nobody_runs(ring: &Ring) -> bool
    ensures { IsTrue result ↔ ((y : ℕ) → runs_at (world_of ring.now) y ≡ false) }
{
    for place in 0..ring.members.len() {
        if ring.members[place].phase.is_running() {
            return false;
        }
    }
    true
}

/// Whether the ring rests.
fn ring_rests(ring: &Ring) -> bool
    requires { IsPlaced (world_of ring.now) }
    ensures { IsTrue result ↔ RingRests (world_of ring.now) }
{
    nobody_runs(ring) || (all_rest(ring) && are_settled(ring, newest_view(ring).entries.as_slice()))
}

/// Whether the ring is quiet.
pub(crate) fn is_quiet(ring: &Ring) -> bool
    requires { IsPlaced (world_of ring.now) }
    ensures { IsTrue result ↔ IsQuiet (world_of ring.now) }
{
    ring_rests(ring) && queue_rests(ring)
}
