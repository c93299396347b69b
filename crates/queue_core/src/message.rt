//! What a publisher multicasts.
ghost use Rattle.std.specs.Prelude.{◌≡◌, IfOk};

use crate::op::Op;
use ring_names::{Body, OutOfMemory};

/// A message of a publisher's log.
#[derive(Drop, Debug)]
pub enum Message {
    /// A client's own multicast.
    Cast(Body),
    /// What a master does to its queue.
    Queue(Op),
}

impl Message {
    /// An equal message.
    pub fn copy(&self) -> Result<Message, OutOfMemory>
        ensures { IfOk result (λ message. message ≡ self.now) }
    {
        Ok(match self {
            Message::Cast(body) => Message::Cast(body.copy()?),
            Message::Queue(op) => Message::Queue(op.copy()?),
        })
    }
}
