//! What is asked of a master, and what it does to its queue by itself: each is an operation that it publishes.
ghost use Rattle.std.specs.Prelude.{◌≡◌, ℕ, List, suc, None, Ok, OnOk, OnErr};
ghost use Rattle.ring_rules.specs.Refusal.{answer_of};
ghost use Rattle.ring_rules.specs.Kind.{Publishes, Does};
ghost use Rattle.ring_rules.specs.Event.{op_as, op_done, op_refusal, up_refusal};
ghost use Rattle.ring_world.specs.Placed.{IsPlacedAt, IsUpAt};
ghost use Rattle.ring_world.specs.Shows.{world_of};

use crate::arms;
use crate::neighbours::{id_at, view_at_place};
use crate::state::Ring;
use queue_core::{Message, Op};
use queue_mirror::Master;
use ring_names::{Body, MemberId, OutOfMemory, Reason};
use ring_rules::Asking;

/// The operation by which the member at a place does it in its view, or the first condition that fails.
#[tactic(auto, using(crate::proofs::code::ShownParts::read_member, crate::proofs::code::Found::few_members))]
fn operation_at(ring: &Ring, place: usize, asking: Asking) -> Result<Op, Reason>
    requires { IsUpAt ring.now place }
    ensures { result ≡ op_as (world_of ring.now) (suc place) (Does asking) }
{
    let view = view_at_place(ring, place);
    let member = &ring.members[place];
    asking.operation(&member.mirror, view, MemberId(id_at(place)), member.started)
}

/// Whether there is an operation.
fn allowed(answer: Result<Op, Reason>) -> Result<(), Reason>
    ensures { result ≡ answer_of (op_refusal answer) }
{
    match answer {
        Ok(_operation) => Ok(()),
        Err(reason) => Err(reason),
    }
}

/// The operation of an answer that isn't a refusal.
fn granted(answer: Result<Op, Reason>) -> Op
    requires { op_refusal answer ≡ None }
    ensures { answer ≡ Ok result }
{
    match answer {
        Ok(operation) => operation,
        Err(_) => unreachable!(),
    }
}

/// Whether the member at a place may publish a message to the queue.
#[tactic(auto, using(crate::proofs::code::ShownParts::read_member, crate::proofs::code::Found::few_members))]
pub(crate) fn may_publish(ring: &Ring, place: usize) -> Result<(), Reason>
    requires { IsPlacedAt ring.now place }
    ensures { (body : List ℕ) → result ≡ answer_of (up_refusal (world_of ring.now) (suc place)
        (op_refusal (op_as (world_of ring.now) (suc place) (Publishes body)))) }
{
    let member = &ring.members[place];
    member.phase.is_up()?;
    Master::may_speak(
        view_at_place(ring, place),
        MemberId(id_at(place)),
        member.started,
    )
}

/// Whether it may do what is asked.
#[tactic(auto, using(crate::proofs::code::ShownParts::read_member, crate::proofs::code::Found::few_members))]
pub(crate) fn may_ask(ring: &Ring, place: usize, asking: Asking) -> Result<(), Reason>
    requires { IsPlacedAt ring.now place }
    ensures { result ≡ answer_of (up_refusal (world_of ring.now) (suc place)
        (op_refusal (op_as (world_of ring.now) (suc place) (Does asking)))) }
{
    ring.members[place].phase.is_up()?;
    allowed(operation_at(ring, place, asking))
}

/// It publishes a message of this body to the queue, at the next position.
#[tactic(auto, using(crate::proofs::code::ShownParts::read_member, crate::proofs::code::Found::few_members))]
pub(crate) fn publish(ring: &mut Ring, place: usize, body: &Body) -> Result<(), OutOfMemory>
    requires placed { IsPlacedAt ring.old place }
    requires enabled { up_refusal (world_of ring.old) (suc place)
        (op_refusal (op_as (world_of ring.old) (suc place) (Publishes body.now))) ≡ None }
    ensures ok { OnOk result (world_of ring.new ≡ op_done (world_of ring.old) (suc place)
        (op_as (world_of ring.old) (suc place) (Publishes body.now))) }
    ensures err { OnErr result (world_of ring.new ≡ world_of ring.old) }
{
    let body = body.copy()?;
    let at = ring.members[place].mirror.queue().next();
    arms::publish(ring, place, Message::Queue(Op::Publish { at, body }))
}

/// It does what is asked.
#[tactic(auto, using(crate::proofs::code::ShownParts::read_member, crate::proofs::code::Found::few_members, ring_rules::proofs::events::Enabled::up_later))]
pub(crate) fn ask(ring: &mut Ring, place: usize, asking: Asking) -> Result<(), OutOfMemory>
    requires placed { IsPlacedAt ring.old place }
    requires enabled { up_refusal (world_of ring.old) (suc place)
        (op_refusal (op_as (world_of ring.old) (suc place) (Does asking))) ≡ None }
    ensures ok { OnOk result (world_of ring.new ≡ op_done (world_of ring.old) (suc place)
        (op_as (world_of ring.old) (suc place) (Does asking))) }
    ensures err { OnErr result (world_of ring.new ≡ world_of ring.old) }
{
    let operation = granted(operation_at(ring, place, asking));
    arms::publish(ring, place, Message::Queue(operation))
}
