//! The event by which a member says a message.
ghost use Rattle.std.specs.Prelude.{◌≡◌, IfOk};
ghost use Rattle.gm_member.specs.Said.{event_doing as doing, event_saying as saying};

use queue_core::{Message, Op};
use ring_names::{Name, OutOfMemory};
use ring_rules::Event;

/// The event by which the member of a name does an operation of its queue: none marks a copy.
fn event_doing(by: &Name, op: &Op) -> Result<Option<Event>, OutOfMemory>
    ensures { IfOk result (λ event. event ≡ doing by.now op.now) }
{
    let by = *by;
    Ok(match op {
        Op::Publish { at: _, body } => Some(Event::Publish {
            by,
            body: body.copy()?,
        }),
        Op::Deliver { .. } => Some(Event::Get { by }),
        Op::Drop { .. } => Some(Event::Pop { by }),
        Op::Ack { at } => Some(Event::Ack { by, at: *at }),
        Op::Requeue { at } => Some(Event::Requeue { by, at: *at }),
        Op::Depth { .. } => Some(Event::Depth { by }),
        Op::Start { .. } => Some(Event::Start { by }),
        Op::SyncMark { .. } => None,
    })
}

/// The event by which it says a message.
pub(crate) fn event_saying(by: &Name, message: &Message) -> Result<Option<Event>, OutOfMemory>
    ensures { IfOk result (λ event. event ≡ saying by.now message.now) }
{
    match message {
        Message::Cast(body) => Ok(Some(Event::Cast {
            by: *by,
            body: body.copy()?,
        })),
        Message::Queue(op) => event_doing(by, op),
    }
}
