//! The conditions and the step of each event of the ring by itself.
ghost use Rattle.std.specs.Prelude.{◌≡◌, suc, None, OnOk, OnErr};
ghost use Rattle.ring_rules.specs.Refusal.{answer_of};
ghost use Rattle.ring_rules.specs.Kind.{Steps, Changes};
ghost use Rattle.ring_rules.specs.Event.{refused_at, doing_as, done_at, done_as};
ghost use Rattle.ring_world.specs.Placed.{IsPlacedAt, IsReadyAt};
ghost use Rattle.ring_world.specs.Shows.{world_of};

use crate::asking::{ask, may_ask, may_publish, publish};
use crate::erasing::erase;
use crate::joining::admit;
use crate::marking::mark;
use crate::places::place_in;
use crate::refreshing::refresh;
use crate::refusing::may_refuse;
use crate::state::Ring;
use crate::syncing::sync;
use crate::{arms, conditions, membership};
use ring_names::{OutOfMemory, Reason};
use ring_rules::{Event, Kind, LinkStep, ViewChange};
use std::alloc::Global;

/// Whether the member at a place may do a step on its links.
fn may_step(ring: &Ring, place: usize, step: LinkStep) -> Result<(), Reason>
    requires { IsPlacedAt ring.now place }
    ensures { result ≡ answer_of (doing_as (world_of ring.now) (suc place) (Steps step)) }
{
    match step {
        LinkStep::Pick => membership::may_pick(ring, place),
        LinkStep::Take => conditions::may_take(ring, place),
        LinkStep::TakeEnd => conditions::may_take_end(ring, place),
        LinkStep::Gain => conditions::may_gain(ring, place),
        LinkStep::Put => conditions::may_put(ring, place),
    }
}

/// Whether it may have the view changed so.
fn may_change(ring: &Ring, place: usize, change: ViewChange) -> Result<(), Reason>
    requires { IsPlacedAt ring.now place }
    ensures { result ≡ answer_of (doing_as (world_of ring.now) (suc place) (Changes change)) }
{
    match change {
        ViewChange::Mark(dead) => membership::may_mark(ring, place, &dead),
        ViewChange::Erase(origin) => membership::may_erase(ring, place, &origin),
        ViewChange::Admit(name) => membership::may_admit(ring, place, &name),
        ViewChange::Register => membership::may_sync(ring, place),
    }
}

/// The first condition that fails of an event of the member at a place.
pub(crate) fn enabled_at(ring: &Ring, place: usize, event: &Event) -> Result<(), Reason>
    requires { IsPlacedAt ring.now place }
    ensures { result ≡ answer_of (refused_at (world_of ring.now) event.now (suc place)) }
{
    match event.kind() {
        Kind::Says | Kind::Tells => match (event, event.own_body(), event.asking()) {
            (Event::Refuse { code, inner }, ..) => may_refuse(ring, place, *code, inner),
            (_, Some(_), _) => conditions::may_cast(ring, place),
            (_, _, Some(asking)) => may_ask(ring, place, asking),
            // what is left is a publish
            _ => may_publish(ring, place),
        },
        Kind::Links(step) => may_step(ring, place, step),
        Kind::Copies(_) => conditions::may_copy(ring, place),
        Kind::Changes(change) => may_change(ring, place, change),
        Kind::Stops => conditions::may_stop(ring, place),
        Kind::Reads(version) => membership::may_refresh(ring, place, version),
    }
}

/// The member at a place does a step on its links.
#[tactic(auto, using(crate::proofs::code::Rules::happening))]
fn do_step(alloc: Global, ring: &mut Ring, place: usize, step: LinkStep) -> Result<(), OutOfMemory>
    requires ready { IsReadyAt ring.old place }
    requires enabled { doing_as (world_of ring.old) (suc place) (Steps step) ≡ None }
    ensures ok { OnOk result (world_of ring.new ≡ done_as (world_of ring.old) (suc place) (Steps step)) }
    ensures err { OnErr result (world_of ring.new ≡ world_of ring.old) }
{
    match step {
        LinkStep::Pick => arms::pick(ring, place),
        LinkStep::Take => arms::take(alloc, ring, place)?,
        LinkStep::TakeEnd => arms::take_end(ring, place),
        LinkStep::Gain => arms::gain(ring, place),
        LinkStep::Put => arms::put(alloc, ring, place)?,
    }
    Ok(())
}

/// It has the view changed.
#[tactic(auto, using(crate::proofs::code::Rules::happening))]
fn change_view(
    alloc: Global,
    ring: &mut Ring,
    place: usize,
    change: ViewChange,
) -> Result<(), OutOfMemory>
    requires ready { IsReadyAt ring.old place }
    requires enabled { doing_as (world_of ring.old) (suc place) (Changes change) ≡ None }
    ensures ok { OnOk result (world_of ring.new ≡ done_as (world_of ring.old) (suc place) (Changes change)) }
    ensures err { OnErr result (world_of ring.new ≡ world_of ring.old) }
{
    match change {
        ViewChange::Mark(dead) => match place_in(ring, &dead) {
            None => unreachable!(),
            Some(dead) => mark(alloc, ring, place, dead),
        },
        ViewChange::Erase(origin) => match place_in(ring, &origin) {
            None => unreachable!(),
            Some(origin) => erase(alloc, ring, place, origin),
        },
        ViewChange::Admit(name) => admit(alloc, ring, place, &name),
        ViewChange::Register => sync(alloc, ring, place),
    }
}

/// An enabled event of the member at a place happens.
#[tactic(auto, using(crate::proofs::code::Rules::happening))]
pub(crate) fn step_at(
    alloc: Global,
    ring: &mut Ring,
    place: usize,
    event: &Event,
) -> Result<(), OutOfMemory>
    requires ready { IsReadyAt ring.old place }
    requires enabled { refused_at (world_of ring.old) event.now (suc place) ≡ None }
    ensures ok { OnOk result (world_of ring.new ≡ done_at (world_of ring.old) event.now (suc place)) }
    ensures err { OnErr result (world_of ring.new ≡ world_of ring.old) }
{
    match event.kind() {
        Kind::Says | Kind::Tells => match (event, event.own_body(), event.asking()) {
            (Event::Publish { body, .. }, ..) => publish(ring, place, body),
            (_, Some(body), _) => arms::cast(ring, place, body),
            (_, _, Some(asking)) => ask(ring, place, asking),
            // what is left is a refusal, which is told and leaves the ring as it is
            _ => Ok(()),
        },
        Kind::Links(step) => do_step(alloc, ring, place, step),
        Kind::Copies(_) => unreachable!(),
        Kind::Changes(change) => change_view(alloc, ring, place, change),
        Kind::Stops => {
            arms::stop(ring, place);
            Ok(())
        }
        Kind::Reads(version) => refresh(alloc, ring, place, version),
    }
}
