//! A member refuses what a client asked of it.
ghost use Rattle.std.specs.Prelude.{◌≡◌, suc, not, Option};
ghost use Rattle.ring_names.specs.declared.reason.Reason.{Reason};
ghost use Rattle.ring_names.specs.declared.reason.Reason.TheVariants as reason;
ghost use Rattle.ring_rules.specs.Refusal.{answer_of, refuse_if};
ghost use Rattle.ring_rules.specs.Event.{event_of, doing_refusal, is_passing as passes, is_told as told};
ghost use Rattle.ring_world.specs.Placed.{IsPlacedAt};
ghost use Rattle.ring_world.specs.Shows.{world_of};

use crate::asking::{may_ask, may_publish};
use crate::state::Ring;
use crate::{conditions, membership};
use ring_names::Reason;
use ring_rules::Client;

/// Whether a client isn't told a refusal, as its command stays.
fn is_passing(reason: &Reason) -> bool
    ensures { result ≡ passes reason.now }
{
    matches!(reason, Reason::Waiting | Reason::NotStarted)
}

/// Whether a client is refused with this number.
fn is_told(code: u32, answer: Result<(), Reason>) -> bool
    ensures { (refusal : Option Reason) → answer ≡ answer_of refusal → result ≡ told code refusal }
{
    match answer {
        Ok(()) => false,
        Err(reason) => reason.code() == code && !is_passing(&reason),
    }
}

/// Whether the member at a place may do what a client asks of it.
fn may_do(ring: &Ring, place: usize, asked: &Client) -> Result<(), Reason>
    requires { IsPlacedAt ring.now place }
    ensures { result ≡ answer_of (doing_refusal (world_of ring.now) (event_of asked.now) (suc place)) }
{
    match asked {
        Client::Cast { .. } => conditions::may_cast(ring, place),
        Client::Publish { .. } => may_publish(ring, place),
        Client::Sync { .. } => conditions::may_copy(ring, place),
        Client::Stop { .. } => conditions::may_stop(ring, place),
        Client::Admit { name, .. } => membership::may_admit(ring, place, name),
        _ => match asked.asking() {
            Some(asking) => may_ask(ring, place, asking),
            None => unreachable!(),
        },
    }
}

/// Whether a client is refused with this number, beside the answer of what it asked.
pub(crate) fn refused_with(code: u32, answer: Result<(), Reason>) -> Result<(), Reason>
    ensures { (refusal : Option Reason) → answer ≡ answer_of refusal
        → result ≡ answer_of (refuse_if (not (told code refusal)) reason.NotRefused) }
{
    if !is_told(code, answer) {
        return Err(Reason::NotRefused);
    }
    Ok(())
}

/// Whether it may refuse that with this number.
pub(crate) fn may_refuse(ring: &Ring, place: usize, code: u32, asked: &Client) -> Result<(), Reason>
    requires { IsPlacedAt ring.now place }
    ensures { result ≡ answer_of (refuse_if
        (not (told code (doing_refusal (world_of ring.now) (event_of asked.now) (suc place))))
        reason.NotRefused) }
{
    refused_with(code, may_do(ring, place, asked))
}
