//! What an enabled event does, at the place of its member.
ghost use Rattle.std.specs.Prelude.{◌≡◌, suc, is_some, Some, None, OnOk, OnErr};
ghost use Rattle.queue_core.specs.declared.message.Message.TheVariants as message;
ghost use Rattle.ring_names.specs.declared.reason.Reason.TheVariants as reason;
ghost use Rattle.ring_rules.specs.Refusal.{refuse_if, or_else};
ghost use Rattle.ring_rules.specs.declared.phase.Ending.TheVariants as ending;
ghost use Rattle.ring_rules.specs.Machine.{member_at};
ghost use Rattle.ring_rules.specs.Step.{publish_at, put_on, gain_on, stop_at, end_out, current_is, leave_link};
ghost use Rattle.ring_rules.specs.Event.{up_refusal, running_refusal, on_link, put_refusal, take_refusal};
ghost use Rattle.ring_rules.specs.Event.{end_refusal, gain_refusal, pick_refusal, at_found, taken_by};
ghost use Rattle.ring_rules.specs.Event.{at_door as the_door};
ghost use Rattle.ring_world.specs.Placed.{IsPlacedAt};
ghost use Rattle.ring_world.specs.Shows.{world_of};

use crate::neighbours::{at_door, id_at};
use crate::state::Ring;
use crate::{plain_links, plain_members, taking};
use queue_core::Message;
use ring_names::{Body, OutOfMemory};
use ring_rules::{Ending, Phase};
use std::alloc::Global;

/// The member at a place publishes a message.
#[tactic(auto, using(crate::proofs::code::Found::own_place))]
pub(crate) fn publish(ring: &mut Ring, place: usize, message: Message) -> Result<(), OutOfMemory>
    requires { IsPlacedAt ring.old place }
    ensures ok { OnOk result (world_of ring.new ≡ publish_at (world_of ring.old) (suc place) message) }
    ensures err { OnErr result (world_of ring.new ≡ world_of ring.old) }
{
    let id = id_at(place) as usize;
    plain_members::publish(&mut ring.members, place, id, message)
}

/// It publishes a body of its own.
pub(crate) fn cast(ring: &mut Ring, place: usize, body: &Body) -> Result<(), OutOfMemory>
    requires { IsPlacedAt ring.old place }
    ensures ok { OnOk result (world_of ring.new
        ≡ publish_at (world_of ring.old) (suc place) (message.Cast body.now)) }
    ensures err { OnErr result (world_of ring.new ≡ world_of ring.old) }
{
    let message = Message::Cast(body.copy()?);
    publish(ring, place, message)
}

/// It puts a packet on its link.
#[tactic(auto, using(crate::proofs::code::Rules::sending, ring_rules::proofs::events::Enabled::put_credit))]
pub(crate) fn put(alloc: Global, ring: &mut Ring, place: usize) -> Result<(), OutOfMemory>
    requires placed { IsPlacedAt ring.old place }
    requires enabled { up_refusal (world_of ring.old) (suc place)
        (on_link (member_at (world_of ring.old) (suc place)).out reason.NoOutLink
        (put_refusal (world_of ring.old) (suc place))) ≡ None }
    ensures ok { OnOk result (world_of ring.new
        ≡ at_found (member_at (world_of ring.old) (suc place)).out (world_of ring.old)
        (put_on (world_of ring.old) (suc place))) }
    ensures err { OnErr result (world_of ring.new ≡ world_of ring.old) }
{
    match ring.members[place].out {
        None => unreachable!(),
        Some(out) => plain_links::put(alloc, &mut ring.links, out, &ring.members[place]),
    }
}

/// The oldest grant on its link becomes credit.
#[tactic(auto, using(crate::proofs::code::Rules::sending, ring_rules::proofs::events::Enabled::gain_some))]
pub(crate) fn gain(ring: &mut Ring, place: usize)
    requires placed { IsPlacedAt ring.old place }
    requires enabled { up_refusal (world_of ring.old) (suc place)
        (on_link (member_at (world_of ring.old) (suc place)).out reason.NoOutLink
        (gain_refusal (world_of ring.old))) ≡ None }
    ensures { world_of ring.new
        ≡ at_found (member_at (world_of ring.old) (suc place)).out (world_of ring.old)
        (gain_on (world_of ring.old)) }
{
    match ring.members[place].out {
        None => unreachable!(),
        Some(out) => plain_links::gain(&mut ring.links, out),
    }
}

/// It takes a packet, where it waits its first.
#[tactic(auto, using(crate::proofs::code::Rules::receiving, ring_rules::proofs::events::Enabled::take_some))]
pub(crate) fn take(alloc: Global, ring: &mut Ring, place: usize) -> Result<(), OutOfMemory>
    requires placed { IsPlacedAt ring.old place }
    requires enabled { running_refusal (world_of ring.old) (suc place)
        (on_link (member_at (world_of ring.old) (suc place)).current reason.NoCurrentLink
        (take_refusal (world_of ring.old) (suc place))) ≡ None }
    ensures ok { OnOk result (world_of ring.new
        ≡ at_found (member_at (world_of ring.old) (suc place)).current (world_of ring.old)
        (taken_by (member_at (world_of ring.old) (suc place)).phase (world_of ring.old)
        (suc place))) }
    ensures err { OnErr result (world_of ring.new ≡ world_of ring.old) }
{
    match ring.members[place].current {
        None => unreachable!(),
        Some(current) => match ring.members[place].phase {
            Phase::Waiting => taking::begin(alloc, ring, place, current),
            Phase::Up => taking::take(alloc, ring, place, current),
            Phase::Stopped => unreachable!(),
        },
    }
}

/// It has taken its link to its end.
#[tactic(auto, using(crate::proofs::code::Rules::receiving))]
pub(crate) fn take_end(ring: &mut Ring, place: usize)
    requires placed { IsPlacedAt ring.old place }
    requires enabled { running_refusal (world_of ring.old) (suc place)
        (on_link (member_at (world_of ring.old) (suc place)).current reason.NoCurrentLink
        (end_refusal (world_of ring.old))) ≡ None }
    ensures { world_of ring.new
        ≡ at_found (member_at (world_of ring.old) (suc place)).current (world_of ring.old)
        (leave_link (world_of ring.old) (suc place)) }
{
    match ring.members[place].current {
        None => unreachable!(),
        Some(current) => {
            plain_members::set_current(&mut ring.members, place, None);
            plain_links::finish(&mut ring.links, current);
        }
    }
}

/// It takes from the link at its door from now on.
#[tactic(auto, using(crate::proofs::code::Rules::picking))]
pub(crate) fn pick(ring: &mut Ring, place: usize)
    requires placed { IsPlacedAt ring.old place }
    requires enabled { up_refusal (world_of ring.old) (suc place)
        (or_else (refuse_if (is_some (member_at (world_of ring.old) (suc place)).current)
        reason.HasCurrentLink) (pick_refusal (world_of ring.old) (suc place))) ≡ None }
    ensures { world_of ring.new
        ≡ at_found (the_door (world_of ring.old) (suc place)) (world_of ring.old)
        (λ s. current_is (world_of ring.old) (suc place) (Some s)) }
{
    match at_door(ring, place) {
        None => unreachable!(),
        Some(link) => plain_members::set_current(&mut ring.members, place, Some(link)),
    }
}

/// It stops, and the link that it sends on ends.
#[tactic(auto, using(crate::proofs::code::ShownParts::read_member))]
pub(crate) fn stop(ring: &mut Ring, place: usize)
    requires placed { IsPlacedAt ring.old place }
    requires enabled { running_refusal (world_of ring.old) (suc place) None ≡ None }
    ensures { world_of ring.new
        ≡ end_out ending.Halted (stop_at (world_of ring.old) (suc place))
        (member_at (world_of ring.old) (suc place)).out }
{
    let out = ring.members[place].out;
    plain_members::stop(&mut ring.members, place);
    if let Some(out) = out {
        plain_links::end(&mut ring.links, out, Ending::Halted);
    }
}
