//! What a member receives.
use queue_core::Message;
use ring_names::MemberId;

/// A message that a packet brought: its origin, and its number in the origin's log, from 1.
#[derive(Drop, Debug)]
pub struct Taken {
    /// Who published it.
    pub origin: MemberId,
    /// Its number in the origin's log, from 1.
    pub number: u64,
    /// The message.
    pub message: Message,
}
