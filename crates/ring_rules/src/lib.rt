//! The rules of the ring: its events, what each does to a state, when it is refused, and the laws over every run.
//! There is no machine here; the plain one is ring_world. Begin at specs/Event.antt, and at specs/Machine.antt for what a
//! state is.
//!
//! Members stand in a ring. Each sends on one link, to its right neighbour, and takes from one link, from its left
//! neighbour.
//!
//! A member that publishes (`Cast`) adds the message to its own log, and counts as having received it. A packet
//! (`Put`) has the version of its sender's view and, of each publisher (the origin of its messages), three numbers:
//! `got`, up to which the sender has received the origin's messages; `forgot`, up to which it has forgotten them; and
//! `lo`, after which the packet brings messages. Who takes it (`Take`) receives what it lacks, and passes that on in a
//! packet of its own.
//!
//! So a message comes round to its publisher, which doesn't receive it again: there the packet's `got` becomes the
//! publisher's `forgot`. The message is now confirmed: each member that is up has received it, or, where it was
//! published before that member's admission, may only have counted it by its first packet. The publisher's next packet
//! says so. As this acknowledgement passes a member, the message is forgotten there; when it has come round too, the
//! publisher's `retired` rises, and of the message nothing is left to say. Going round from the publisher past members
//! and the packets on the links between them, `got` never rises, then `forgot`, then `retired`: that is the walk
//! (`World::walk` of ring_world).
//!
//! A link is under credit. Each packet takes one. The receiver counts what it takes, and at each so many a grant goes
//! back, which the sender gains by an event of its own (`Gain`). Without credit nothing is put.
//!
//! Where a member stops (`Stop`), the link on which it sends ends behind the packets that are on it. Its right
//! neighbour takes these, and then the end (`TakeEnd`). A neighbour has it marked dead (`Mark`): the left one when it
//! likes, the right one only where it takes from no link and none stands at its door. A mark makes the next version of
//! the view, which the marker has from then on. The others read it later (`Refresh`), but each before it takes a
//! packet that was put under it.
//!
//! Who finds another right neighbour in its new view ends its link and opens one to that neighbour. The first packet
//! there begins at what the sender forgot, so it brings all that may be missing. The link stands at the receiver's
//! door until that one takes from no link, has a view as new as the link, and picks it (`Pick`). A refresh leaves the
//! link from which a member takes, where it doesn't come from the left neighbour any more, or was opened before that
//! one became it. Who takes from beyond dead members answers for them: of itself and of those between the sender and
//! itself in its view it receives nothing, but learns how far messages and acknowledgements have come round.
//!
//! `every_state_is_lawful` and `nothing_falls_through_deaths` are the laws of every run. docs/PROTOCOL.md plays a cast
//! and a death with all numbers.
//!
//! Who answers for a dead member has it erased (`Erase`) once all that it got of it has come round, and the
//! acknowledgement too. The entry stays, and nothing of the member is under way any more. Where the master is erased,
//! the oldest member that is live and registered as synchronised becomes it.
//!
//! A member admits another of a new name (`Admit`), which stands directly right of it: `gm:handle_call` `add_on_right`.
//! The admitter sends to it from now on, and the new one takes from that link and waits. Its first take brings what the
//! admitter knows: it hears nothing of what came before (its base), answers for itself, and is up. At its next
//! refresh it opens a link of its own. A member has rows only for those that it knew of at its last take: of the
//! others it knows nothing yet.
//!
//! What a client asked of a member and can't be done is told by an event too (`Refuse`), with the number of the first
//! condition that fails. It leaves the ring as it is, and a `World` of ring_world keeps the list (`World::refusals`).
//!
//! On the ring stands a mirrored queue. The master of a view publishes what it does to it (`Publish`, `Get`, `Pop`, `Ack`,
//! `Requeue`) as operations in its log, and each member's mirror takes them as they come round:
//! `rabbit_mirror_queue_master` and `rabbit_mirror_queue_slave`. A mirror of a member that joined holds just what was
//! published since; it knows how much it lacks once the master tells how many messages there are (`Depth`), and once it
//! lacks nothing its member is registered as synchronised (`Synced`). Only such a member is elected. A new master starts
//! before anything else (`Start`): what was handed out is ready again. `every_queue_is_right` is the law of it.
//!
//! Copies of the queue to mirrors stand in ring_copies: here each step on one is refused. The packets here have numbers
//! alone, and messages are read from their publisher's log; those of gm_member carry the messages.
#![tactic(auto)]

mod event;
mod kind;
mod laws;
mod numbers;
mod phase;
mod refused;
mod shown;

pub use event::{Client, Event};
pub use kind::{Asking, CopyStep, Kind, LinkStep, ViewChange};
pub use laws::{
    an_idle_ring_is_quiet, each_step_of_repair_leaves_less_to_do, every_number_is_bounded,
    every_queue_is_right, every_ring_settles, every_state_is_lawful, later_masters_start_first,
    nothing_falls_through_deaths, packets_may_be_compact,
};
pub use numbers::{Numbers, numbers_at};
pub use phase::{Ending, Phase};
pub use refused::Refused;
pub use shown::{Counts, MemberState, counts_in};
