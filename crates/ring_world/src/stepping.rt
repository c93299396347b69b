//! Each event's conditions and its step, in a ring with copies.
ghost use Rattle.std.specs.Prelude.{◌≡◌, suc, true, false, map, None, OnOk, OnErr};
ghost use Rattle.ring_rules.specs.Refusal.{answer_of};
ghost use Rattle.ring_copies.specs.Events.{sort_of, refused_in, step_refusal, done_in, ring_done, step_done, let_go_by};
ghost use Rattle.ring_rules.specs.Kind.{kind_of, shown_kind};
ghost use Rattle.ring_rules.specs.Event.{up_refusal, refused_at, done_at};
ghost use Rattle.ring_copies.specs.Copies.{let_go, is_blocked_at as blocked_at};
ghost use Rattle.ring_rules.specs.Machine.{runs};
ghost use Rattle.ring_copies.specs.Runs.{refusal, effect};
ghost use Rattle.ring_world.specs.Placed.{IsPlaced, IsPlacedAt, IsReady, IsReadyAt};
ghost use Rattle.ring_world.specs.Shows.{world_of};
ghost use Rattle.ring_world.specs.Copied.{copy_of, state_in, after_flags, stops_kind, reads_kind, HaveRoom, AreCopied, IsThen, AreThen};

use crate::copies::{follow, make_room};
use crate::copying::{self, is_blocked};
use crate::dispatch;
use crate::neighbours::{id_at, view_of};
use crate::places::place_in;
use crate::plain_copy::PlainCopy;
use crate::refusing::refused_with;
use crate::state::Ring;
use ring_names::{OutOfMemory, Reason};
use ring_rules::{Client, CopyStep, Event, Kind};
use std::alloc::Global;

/// The first condition of an event that fails.
pub(crate) fn enabled(ring: &Ring, copies: &[PlainCopy], event: &Event) -> Result<(), Reason>
    requires { IsPlaced (world_of ring.now) }
    ensures { result ≡ answer_of (refusal (state_in ring.now copies.now) event.now) }
{
    match place_in(ring, event.by()) {
        None => Err(Reason::UnknownMember),
        Some(place) => enabled_at(ring, copies, place, event),
    }
}

/// The first condition that fails of an event of the member at a place.
fn enabled_at(ring: &Ring, copies: &[PlainCopy], place: usize, event: &Event) -> Result<(), Reason>
    requires { IsPlacedAt ring.now place }
    ensures { result ≡ answer_of (refused_in (state_in ring.now copies.now) (sort_of event.now) (suc place)) }
{
    match event {
        Event::Sync { target, .. } => {
            copying::may_step(ring, copies, place, CopyStep::Open(*target))
        }
        Event::SyncPut { .. } => copying::may_step(ring, copies, place, CopyStep::Put),
        Event::SyncTake { .. } => copying::may_step(ring, copies, place, CopyStep::Take),
        Event::SyncGain { .. } => copying::may_step(ring, copies, place, CopyStep::Gain),
        Event::Refuse {
            code,
            inner: Client::Sync { target, .. },
        } => refused_with(
            *code,
            copying::may_step(ring, copies, place, CopyStep::Open(*target)),
        ),
        _ => dispatch::enabled_at(ring, place, event),
    }
}

/// An enabled event happens.
pub(crate) fn step(
    alloc: Global,
    ring: &mut Ring,
    copies: &mut Vec<PlainCopy>,
    event: &Event,
) -> Result<(), OutOfMemory>
    requires ready { IsReady (world_of ring.old) }
    requires copied { AreCopied (state_in ring.old copies.old.items) }
    requires enabled { refusal (state_in ring.old copies.old.items) event.now ≡ None }
    requires then { AreThen (state_in ring.old copies.old.items) event.now }
    ensures ok { OnOk result (state_in ring.new copies.new.items
        ≡ effect (state_in ring.old copies.old.items) event.now) }
    ensures err { OnErr result (state_in ring.new copies.new.items ≡ state_in ring.old copies.old.items) }
{
    match place_in(ring, event.by()) {
        None => unreachable!(),
        Some(place) => {
            make_room(copies)?;
            step_at(alloc, ring, copies, place, event)
        }
    }
}

/// What the member at a place has done leaves of the copies: it may have stopped, or read a view; and if it isn't blocked the
/// grants go under way that it held back.
fn after(ring: &Ring, copies: &mut [PlainCopy], place: usize, stops: bool, reads: bool)
    requires placed { IsPlacedAt ring.now place }
    requires runs { reads ≡ true → runs (world_of ring.now) (suc place) ≡ true }
    requires room { HaveRoom 1 copies.old }
    ensures { map copy_of copies.new ≡ let_go (blocked_at (world_of ring.now) (suc place)) (suc place)
        (after_flags stops reads (world_of ring.now) (suc place) (map copy_of copies.old)) }
{
    let blocked = is_blocked(ring, place);
    let id = id_at(place);
    if stops || !reads {
        follow(copies, stops, None, blocked, id);
        return;
    }
    let version = ring.members[place].version;
    follow(
        copies,
        false,
        Some(view_of(&ring.views, version)),
        blocked,
        id,
    );
}

/// Whether an event of a kind is a stop.
fn stops(kind: &Kind) -> bool
    ensures { result ≡ stops_kind kind.now }
{
    matches!(kind, Kind::Stops)
}

/// Whether its member reads a view by it.
fn reads(kind: &Kind) -> bool
    ensures { result ≡ reads_kind kind.now }
{
    matches!(kind, Kind::Changes(_) | Kind::Reads(_))
}

/// The member at a place does an enabled step on a copy.
fn step_copy(
    alloc: Global,
    ring: &mut Ring,
    copies: &mut Vec<PlainCopy>,
    place: usize,
    step: CopyStep,
) -> Result<(), OutOfMemory>
    requires placed { IsPlacedAt ring.old place }
    requires copied { AreCopied (state_in ring.old copies.old.items) }
    requires enabled { up_refusal (world_of ring.old) (suc place)
        (step_refusal (state_in ring.old copies.old.items) (suc place) step) ≡ None }
    requires then { IsThen (step_done (state_in ring.old copies.old.items) (suc place) step).ring (suc place) false }
    requires room { HaveRoom 3 copies.old.items }
    ensures ok { OnOk result (state_in ring.new copies.new.items
        ≡ let_go_by (suc place) (step_done (state_in ring.old copies.old.items) (suc place) step)) }
    ensures err { OnErr result (state_in ring.new copies.new.items ≡ state_in ring.old copies.old.items) }
{
    copying::do_step(alloc, ring, copies, place, step)?;
    after(ring, copies, place, false, false);
    Ok(())
}

/// It does an enabled event of the ring by itself.
fn step_ring(
    alloc: Global,
    ring: &mut Ring,
    copies: &mut [PlainCopy],
    place: usize,
    event: &Event,
) -> Result<(), OutOfMemory>
    requires ready { IsReadyAt ring.old place }
    requires enabled { refused_at (world_of ring.old) event.now (suc place) ≡ None }
    requires then { IsThen (done_at (world_of ring.old) event.now (suc place)) (suc place)
        (reads_kind (shown_kind (kind_of event.now))) }
    requires room { HaveRoom 3 copies.old }
    ensures ok { OnOk result (state_in ring.new copies.new
        ≡ let_go_by (suc place) (ring_done (state_in ring.old copies.old) (suc place) (kind_of event.now))) }
    ensures err { OnErr result (state_in ring.new copies.new ≡ state_in ring.old copies.old) }
{
    let kind = event.kind();
    dispatch::step_at(alloc, ring, place, event)?;
    after(ring, copies, place, stops(&kind), reads(&kind));
    Ok(())
}

/// It does an enabled event.
fn step_at(
    alloc: Global,
    ring: &mut Ring,
    copies: &mut Vec<PlainCopy>,
    place: usize,
    event: &Event,
) -> Result<(), OutOfMemory>
    requires ready { IsReadyAt ring.old place }
    requires copied { AreCopied (state_in ring.old copies.old.items) }
    requires enabled { refused_in (state_in ring.old copies.old.items) (sort_of event.now) (suc place) ≡ None }
    requires then { IsThen (done_in (state_in ring.old copies.old.items) (sort_of event.now) (suc place)).ring (suc place)
        (reads_kind (shown_kind (kind_of event.now))) }
    requires room { HaveRoom 3 copies.old.items }
    ensures ok { OnOk result (state_in ring.new copies.new.items
        ≡ let_go_by (suc place) (done_in (state_in ring.old copies.old.items) (sort_of event.now) (suc place))) }
    ensures err { OnErr result (state_in ring.new copies.new.items ≡ state_in ring.old copies.old.items) }
{
    if let Kind::Copies(step) = event.kind() {
        return step_copy(alloc, ring, copies, place, step);
    }
    if event.is_refusal() {
        after(ring, copies, place, false, false);
        return Ok(());
    }
    step_ring(alloc, ring, copies, place, event)
}
