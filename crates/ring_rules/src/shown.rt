//! What is asked of members.
ghost use Rattle.std.specs.Prelude.{◌≡◌, take, count_by};
ghost use Rattle.ring_rules.specs.Shown.{is_cast as cast_is, is_publish as publish_is, counts_in as the_counts};

use queue_core::{Message, Op};

/// How many messages of its own a member has published, by kind, and how many of them have come
/// round: these each member that is up has received, or counted by its first packet.
#[derive(Clone, Copy, PartialEq, Eq, Debug)]
pub struct Counts {
    /// The casts in its log.
    pub casts: u64,
    /// Those of them that have come round to it.
    pub casts_confirmed: u64,
    /// The messages to the queue in its log.
    pub publishes: u64,
    /// Those of them that have come round to it.
    pub publishes_confirmed: u64,
}

/// Where a member stands.
#[derive(Clone, Copy, PartialEq, Eq, Debug)]
pub enum MemberState {
    /// It was admitted, and has no state yet.
    Waiting,
    /// It takes part. `missing` is how many messages its mirror lacks, where that is known.
    Up { missing: Option<u64> },
    /// It has stopped.
    Stopped,
}

fn is_cast(message: &Message) -> bool
    ensures { result ≡ cast_is message.now }
{
    matches!(message, Message::Cast(_))
}

fn is_publish(message: &Message) -> bool
    ensures { result ≡ publish_is message.now }
{
    matches!(message, Message::Queue(Op::Publish { .. }))
}

fn casts_in(log: &[Message]) -> u64
    ensures { result ≡ count_by cast_is log.now }
{
    log.iter().filter(|message| is_cast(message)).count() as u64
}

fn publishes_in(log: &[Message]) -> u64
    ensures { result ≡ count_by publish_is log.now }
{
    log.iter().filter(|message| is_publish(message)).count() as u64
}

/// The messages of a log that have come round.
fn confirmed_of(log: &[Message], forgot: u64) -> &[Message]
    ensures { result.now ≡ take forgot log.now }
{
    let end = forgot.min(log.len() as u64);
    &log[..end as usize]
}

/// The counts of a log, of which so many messages have come round.
pub fn counts_in(log: &[Message], forgot: u64) -> Counts
    ensures { result ≡ the_counts forgot log.now }
{
    let confirmed = confirmed_of(log, forgot);
    Counts {
        casts: casts_in(log),
        casts_confirmed: casts_in(confirmed),
        publishes: publishes_in(log),
        publishes_confirmed: publishes_in(confirmed),
    }
}
