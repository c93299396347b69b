//! Kinds of events: what differs among them, and not whose they are.
ghost use Rattle.std.specs.Prelude.{◌≡◌};
ghost use Rattle.ring_rules.specs.Kind.{kind_of, asking_of, client_asking_of, shown_kind, step_event};

use crate::event::{Client, Event};
use group_view::View;
use queue_core::Op;
use queue_mirror::{Master, Mirror};
use ring_names::{Body, MemberId, Name, Position, Reason};

/// What is done to a queue but for a publish, where its master is asked to or by itself.
#[derive(Clone, Copy, PartialEq, Eq, Debug)]
pub enum Asking {
    /// The first ready message is handed out.
    Get,
    /// It is taken off for good.
    Pop,
    /// The message of a position, which was handed out, is acknowledged.
    Ack(Position),
    /// It is handed back.
    Requeue(Position),
    /// The master tells how many messages there are.
    Depth,
    /// A new master begins.
    Start,
}

/// What a member does on its links.
#[derive(Clone, Copy, PartialEq, Eq, Debug)]
pub enum LinkStep {
    /// It takes from the first link at its door.
    Pick,
    /// It takes a packet.
    Take,
    /// It takes the end of a link.
    TakeEnd,
    /// It gains credit.
    Gain,
    /// It puts a packet.
    Put,
}

/// What a member has the registrar change in the view.
#[derive(Clone, Copy, PartialEq, Eq, Debug)]
pub enum ViewChange {
    /// A neighbour that has stopped is marked dead.
    Mark(Name),
    /// A dead origin is erased.
    Erase(Name),
    /// One of a new name is admitted.
    Admit(Name),
    /// The member itself is registered as synchronised.
    Register,
}

/// What a member does on a copy of the queue.
#[derive(Clone, Copy, PartialEq, Eq, Debug)]
pub enum CopyStep {
    /// As master it opens one to the member of a name.
    Open(Name),
    /// It puts the next load.
    Put,
    /// As mirror it takes the oldest load.
    Take,
    /// As master it gains credit.
    Gain,
}

/// What an event is, whoever does it.
#[derive(Clone, Copy, PartialEq, Eq, Debug)]
pub enum Kind {
    /// The member publishes a message: of its own, or an operation of its queue.
    Says,
    /// It does a step on its links.
    Links(LinkStep),
    /// It does a step on a copy.
    Copies(CopyStep),
    /// It has the view changed.
    Changes(ViewChange),
    /// It stops.
    Stops,
    /// It reads the view of a version.
    Reads(u32),
    /// It tells a client that what was asked is refused.
    Tells,
}

impl Asking {
    ghost use Rattle.std.specs.Prelude.{◌≡◌};
    ghost use Rattle.ring_rules.specs.Kind.{Does};
    ghost use Rattle.ring_rules.specs.Event.{asked_op};

    /// The operation by which a member does it, by its mirror, by its view, and by whether it has started; or the first
    /// condition that fails, as `Master` has them. It wants no memory.
    pub fn operation(
        self,
        mirror: &Mirror,
        view: &View,
        me: MemberId,
        started: bool,
    ) -> Result<Op, Reason>
        ensures { result ≡ asked_op (mirror.now).mirror view.now me.0 started (Does self) }
    {
        match self {
            Asking::Get => Master::get(mirror, view, me, started),
            Asking::Pop => Master::pop(mirror, view, me, started),
            Asking::Ack(at) => Master::ack(mirror, view, me, started, at),
            Asking::Requeue(at) => Master::requeue(mirror, view, me, started, at),
            Asking::Depth => Master::depth(mirror, view, me, started),
            Asking::Start => Master::start(mirror, view, me, started),
        }
    }
}

impl LinkStep {
    /// The event by which this member does it.
    pub fn event(self, by: Name) -> Event
        ensures { result ≡ step_event self by }
    {
        match self {
            LinkStep::Pick => Event::Pick { by },
            LinkStep::Take => Event::Take { by },
            LinkStep::TakeEnd => Event::TakeEnd { by },
            LinkStep::Gain => Event::Gain { by },
            LinkStep::Put => Event::Put { by },
        }
    }
}

impl Event {
    ghost use Rattle.std.specs.Prelude.{◌≡◌, None, Some, MatchOption};
    ghost use Rattle.ring_rules.specs.Kind.{kind_of, own_body_of, queued_body_of, asking_of, shown_kind};

    /// What the event is, whoever does it.
    pub fn kind(&self) -> Kind
        ensures { result ≡ shown_kind (kind_of self.now) }
    {
        match self {
            Event::Cast { .. } | Event::Publish { .. } | Event::Get { .. } => Kind::Says,
            Event::Pop { .. } | Event::Ack { .. } | Event::Requeue { .. } => Kind::Says,
            Event::Depth { .. } | Event::Start { .. } => Kind::Says,
            Event::Put { .. } => Kind::Links(LinkStep::Put),
            Event::Take { .. } => Kind::Links(LinkStep::Take),
            Event::TakeEnd { .. } => Kind::Links(LinkStep::TakeEnd),
            Event::Gain { .. } => Kind::Links(LinkStep::Gain),
            Event::Pick { .. } => Kind::Links(LinkStep::Pick),
            Event::Sync { target, .. } => Kind::Copies(CopyStep::Open(*target)),
            Event::SyncPut { .. } => Kind::Copies(CopyStep::Put),
            Event::SyncTake { .. } => Kind::Copies(CopyStep::Take),
            Event::SyncGain { .. } => Kind::Copies(CopyStep::Gain),
            Event::Mark { dead, .. } => Kind::Changes(ViewChange::Mark(*dead)),
            Event::Erase { origin, .. } => Kind::Changes(ViewChange::Erase(*origin)),
            Event::Admit { name, .. } => Kind::Changes(ViewChange::Admit(*name)),
            Event::Synced { .. } => Kind::Changes(ViewChange::Register),
            Event::Stop { .. } => Kind::Stops,
            Event::Refresh { view, .. } => Kind::Reads(*view),
            Event::Refuse { .. } => Kind::Tells,
        }
    }

    /// The body of the message of its member's own that it publishes, if it publishes one.
    pub fn own_body(&self) -> Option<&Body>
        ensures { MatchOption result (own_body_of (kind_of self.now) ≡ None)
            (λ body. own_body_of (kind_of self.now) ≡ Some body.now) }
    {
        match self {
            Event::Cast { body, .. } => Some(body),
            _ => None,
        }
    }

    /// The body of the message that it publishes to a queue, if it publishes one there.
    pub fn queued_body(&self) -> Option<&Body>
        ensures { MatchOption result (queued_body_of (kind_of self.now) ≡ None)
            (λ body. queued_body_of (kind_of self.now) ≡ Some body.now) }
    {
        match self {
            Event::Publish { body, .. } => Some(body),
            _ => None,
        }
    }

    /// What it does to a queue, if it does anything to one but publish a message.
    pub fn asking(&self) -> Option<Asking>
        ensures { result ≡ asking_of (kind_of self.now) }
    {
        match self {
            Event::Get { .. } => Some(Asking::Get),
            Event::Pop { .. } => Some(Asking::Pop),
            Event::Ack { at, .. } => Some(Asking::Ack(*at)),
            Event::Requeue { at, .. } => Some(Asking::Requeue(*at)),
            Event::Depth { .. } => Some(Asking::Depth),
            Event::Start { .. } => Some(Asking::Start),
            _ => None,
        }
    }
}

impl Client {
    ghost use Rattle.std.specs.Prelude.{◌≡◌};
    ghost use Rattle.ring_rules.specs.Kind.{client_asking_of};

    /// What is asked of a queue, if anything is but to publish a message.
    pub fn asking(&self) -> Option<Asking>
        ensures { result ≡ client_asking_of self.now }
    {
        match self {
            Client::Get { .. } => Some(Asking::Get),
            Client::Pop { .. } => Some(Asking::Pop),
            Client::Ack { at, .. } => Some(Asking::Ack(*at)),
            Client::Requeue { at, .. } => Some(Asking::Requeue(*at)),
            _ => None,
        }
    }
}
