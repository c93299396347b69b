//! Copies of a log's messages.
ghost use Rattle.std.specs.Prelude.{◌≡◌, IfOk};
ghost use Rattle.ring_rules.specs.Rows.{messages_between as the_messages};

use queue_core::Message;
use ring_names::OutOfMemory;
use std::alloc::Global;

/// A copy of each message.
pub(crate) fn copied(alloc: Global, messages: &[Message]) -> Result<Vec<Message>, OutOfMemory>
    ensures { IfOk result (λ v. v.items ≡ messages.now) }
{
    let mut all = Vec::new(alloc);
    for message in messages {
        all.push(message.copy()?)?;
    }
    Ok(all)
}

/// A copy of messages `lo` + 1 to `hi`.
pub(crate) fn messages_between(
    alloc: Global,
    log: &[Message],
    lo: u64,
    hi: u64,
) -> Result<Vec<Message>, OutOfMemory>
    ensures { IfOk result (λ v. v.items ≡ the_messages lo hi log.now) }
{
    let end = hi.min(log.len() as u64);
    let start = lo.min(end);
    let front = &log[..end as usize];
    let all = copied(alloc, &front[start as usize..])?;
    Ok(all)
}
