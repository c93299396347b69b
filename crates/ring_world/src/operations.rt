//! The queue's operations among messages.
ghost use Rattle.std.specs.Prelude.{◌≡◌, ◌≤◌, ◌++◌, length, map, IfOk, OnOk};
ghost use Rattle.queue_mirror.specs.Mirror.{apply_ops, is_tell as the_telling};
ghost use Rattle.queue_laws.specs.Part.{ops};
ghost use Rattle.queue_laws.specs.Starting.{is_start as the_start};
ghost use Rattle.ring_world.specs.Shows.{news_of, operations_in, operation_in};

use crate::plain_member::Brought;
use queue_core::{Message, Op};
use queue_mirror::Mirror;
use ring_names::OutOfMemory;
use std::alloc::Global;

/// Whether a master begins with an operation.
pub(crate) fn is_start(operation: &Op) -> bool
    ensures { result ≡ the_start operation.now }
{
    matches!(operation, Op::Start { .. })
}

/// Whether an operation tells how many messages there are.
pub(crate) fn tells(operation: &Op) -> bool
    ensures { result ≡ the_telling operation.now }
{
    matches!(operation, Op::Depth { .. } | Op::Start { .. })
}

/// A copy of the operation that a message is, if it is one.
pub(crate) fn operation_of(message: &Message) -> Result<Option<Op>, OutOfMemory>
    ensures { IfOk result (λ o. o ≡ operation_in message.now) }
{
    match message {
        Message::Cast(_) => Ok(None),
        Message::Queue(operation) => Ok(Some(operation.copy()?)),
    }
}

/// Copies of the operations among messages join the others.
fn push_operations(all: &mut Vec<Op>, messages: &[Message]) -> Result<(), OutOfMemory>
    ensures { OnOk result (all.new.items ≡ all.old.items ++ ops messages.now) }
{
    for message in messages {
        if let Message::Queue(operation) = message {
            all.push(operation.copy()?)?;
        }
    }
    Ok(())
}

/// Copies of the operations that are brought, origin by origin.
pub(crate) fn operations(alloc: Global, news: &[Brought]) -> Result<Vec<Op>, OutOfMemory>
    ensures { IfOk result (λ v. v.items ≡ operations_in (map news_of news.now)) }
{
    let mut all = Vec::new(alloc);
    for brought in news {
        push_operations(&mut all, &brought.messages)?;
    }
    Ok(all)
}

/// A mirror takes operations, for which there is room.
pub(crate) fn apply_all(mirror: &mut Mirror, operations: Vec<Op>)
    requires { length operations.items ≤ (mirror.old).room }
    ensures { (mirror.new).mirror ≡ apply_ops (mirror.old).mirror operations.items }
{
    for operation in operations {
        mirror.apply_reserved(operation);
    }
}
