//! Kinds of messages.

/// What a message of a publisher's log is, as far as its book tells them apart.
#[derive(Clone, Copy, PartialEq, Eq, Debug)]
pub enum Kind {
    /// A client's own multicast.
    Cast,
    /// A message that is published to the queue.
    Publish,
    /// Any other message, as an operation on the queue that publishes nothing. It is numbered like the others.
    Other,
}
