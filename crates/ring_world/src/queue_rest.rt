//! Whether the queue rests.
ghost use Rattle.std.specs.Prelude.{◌≡◌, ◌↔◌, ◌<◌, ℕ, suc, true, false, length, is_some, Some, IsTrue, MatchOption};
ghost use Rattle.group_view.specs.View.{entry_in};
ghost use Rattle.ring_rules.specs.Machine.{member_at, view_in, newest as the_newest, runs as runs_at};
ghost use Rattle.ring_rules.specs.Quiet.{QueueRests};
ghost use Rattle.ring_rules.specs.Work.{is_led, is_late as late_is};
ghost use Rattle.ring_world.specs.Placed.{IsPlaced, IsPlacedAt};
ghost use Rattle.ring_world.specs.Shows.{world_of};

use crate::neighbours::{id_at, newest_view};
use crate::state::Ring;
use crate::walk::running_place;
use group_view::View;
use ring_names::MemberId;

/// Whether the member at a place is registered as synchronised, where its mirror misses nothing.
#[tactic(auto, using(crate::proofs::code::ShownParts::read_member, crate::proofs::code::Found::few_members))]
fn is_enrolled(ring: &Ring, place: usize) -> bool
    requires { IsPlacedAt ring.now place }
    ensures { IsTrue result ↔ ((member_at (world_of ring.now) (suc place)).mirror.missing ≡ Some 0
        → (entry_in (view_in (world_of ring.now) (the_newest (world_of ring.now))).entries (suc place)).synced
        ≡ true) }
{
    if !ring.members[place].mirror.is_synced() {
        return true;
    }
    newest_view(ring).is_synced(MemberId(id_at(place)))
}

/// Whether each running member is.
#[tactic(auto, using(crate::proofs::code::ShownParts::read_member))]
fn all_are_enrolled(ring: &Ring) -> bool
    requires { IsPlaced (world_of ring.now) }
    ensures { IsTrue result ↔ ((y : ℕ) → runs_at (world_of ring.now) y ≡ true
        → (member_at (world_of ring.now) y).mirror.missing ≡ Some 0
        → (entry_in (view_in (world_of ring.now) (the_newest (world_of ring.now))).entries y).synced ≡ true) }
{
    for place in 0..ring.members.len() {
        if ring.members[place].phase.is_running() && !is_enrolled(ring, place) {
            return false;
        }
    }
    true
}

/// Whether the member at a place knows how many messages its mirror lacks, where it runs.
#[tactic(auto, using(crate::proofs::code::ShownParts::read_member))]
fn knows(ring: &Ring, place: usize) -> bool
    requires { place < length ring.now.members.items }
    ensures { IsTrue result ↔ (runs_at (world_of ring.now) (suc place) ≡ true
        → is_some (member_at (world_of ring.now) (suc place)).mirror.missing ≡ true) }
{
    if !ring.members[place].phase.is_running() {
        return true;
    }
    ring.members[place].mirror.missing().is_some()
}

/// Whether each running member knows.
fn all_know(ring: &Ring) -> bool
    ensures { IsTrue result ↔ ((y : ℕ) → runs_at (world_of ring.now) y ≡ true
        → is_some (member_at (world_of ring.now) y).mirror.missing ≡ true) }
{
    for place in 0..ring.members.len() {
        if !knows(ring, place) {
            return false;
        }
    }
    true
}

/// Whether a master that has started or not has its start still to publish.
fn is_late(view: &View, started: bool) -> bool
    ensures { result ≡ late_is view.now started }
{
    view.term > 1 && !started
}

/// The place of the member that leads in the newest view, where it runs.
fn master_place(ring: &Ring) -> Option<usize>
    requires { IsPlaced (world_of ring.now) }
    ensures { MatchOption result
        ((m : ℕ) → runs_at (world_of ring.now) m ≡ true
        → is_led (view_in (world_of ring.now) (the_newest (world_of ring.now))).master m ≡ false)
        (λ place. (place < length ring.now.members.items) × (runs_at (world_of ring.now) (suc place) ≡ true)
        × (is_led (view_in (world_of ring.now) (the_newest (world_of ring.now))).master (suc place) ≡ true)) }
{
    let master = newest_view(ring).master?;
    running_place(ring, master.0 as usize)
}

/// Whether the master, at a place, has nothing to start with, and each running member knows.
#[tactic(auto, using(crate::proofs::code::ShownParts::read_member))]
fn master_rests(ring: &Ring, place: usize) -> bool
    requires { IsPlacedAt ring.now place }
    ensures { IsTrue result ↔ ((late_is (view_in (world_of ring.now) (the_newest (world_of ring.now)))
        (member_at (world_of ring.now) (suc place)).started ≡ false)
        × ((y : ℕ) → runs_at (world_of ring.now) y ≡ true
        → is_some (member_at (world_of ring.now) y).mirror.missing ≡ true)) }
{
    if is_late(newest_view(ring), ring.members[place].started) {
        return false;
    }
    all_know(ring)
}

/// Whether the queue rests.
pub(crate) fn queue_rests(ring: &Ring) -> bool
    requires { IsPlaced (world_of ring.now) }
    ensures { IsTrue result ↔ QueueRests (world_of ring.now) }
{
    if !all_are_enrolled(ring) {
        return false;
    }
    let Some(place) = master_place(ring) else {
        return true;
    };
    master_rests(ring, place)
}
