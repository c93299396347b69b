//! The events of the ring.
ghost use Rattle.std.specs.Prelude.{◌≡◌, IfOk};
ghost use Rattle.ring_rules.specs.Event.{by_of, is_refusal as refusal_is};

use ring_names::{Body, Name, OutOfMemory, Position};

/// One atomic step of one member, as `gm` takes them.
#[derive(Drop, Debug)]
pub enum Event {
    /// The member publishes a message of its own.
    Cast { by: Name, body: Body },
    /// The master publishes a message to its queue.
    Publish { by: Name, body: Body },
    /// The master hands out the first ready message of its queue.
    Get { by: Name },
    /// The master takes the first ready message off its queue for good.
    Pop { by: Name },
    /// The master's client acknowledges the message of a position, which was handed out.
    Ack { by: Name, at: Position },
    /// The master's client hands the message of a position back, which was handed out.
    Requeue { by: Name, at: Position },
    /// The master tells how many messages its queue has.
    Depth { by: Name },
    /// A new master begins, before it does anything else to its queue.
    Start { by: Name },
    /// The master marks a copy of its queue to another member, and opens it: `rabbit_mirror_queue_master:sync_mirrors`.
    Sync { by: Name, target: Name },
    /// The member puts a packet on the link that it sends on.
    Put { by: Name },
    /// The member takes the oldest packet from the link that it takes from.
    Take { by: Name },
    /// The member has taken all packets from that link, and takes its end.
    TakeEnd { by: Name },
    /// The member gains the oldest grant under way on the link that it sends on as credit, as
    /// `credit_flow:handle_bump_msg`.
    Gain { by: Name },
    /// The member stops.
    Stop { by: Name },
    /// The member sees that a neighbour has stopped, and has it marked dead.
    Mark { by: Name, dead: Name },
    /// The member reads the view of a version, and sends to its right neighbour in it.
    Refresh { by: Name, view: u32 },
    /// The member admits one of a new name, directly right of itself.
    Admit { by: Name, name: Name },
    /// The member takes from now on from the oldest link at its door.
    Pick { by: Name },
    /// The member has a dead origin erased, for which it answers, and whose messages have all come round.
    Erase { by: Name, origin: Name },
    /// The member has all that its queue's mirror missed, and is registered as synchronised.
    Synced { by: Name },
    /// The master puts the next load on its copy, as `rabbit_mirror_queue_sync:master_go`.
    SyncPut { by: Name },
    /// The mirror takes the oldest load from the oldest copy that is made to it, as `rabbit_mirror_queue_sync:slave`.
    SyncTake { by: Name },
    /// The master gains the oldest grant under way on its copy as credit.
    SyncGain { by: Name },
    /// What a client asked of a member can't be done, and is told with the number of its refusal.
    Refuse { code: u32, inner: Client },
}

/// What a client asks of a member.
#[derive(Drop, Debug)]
pub enum Client {
    /// To publish a message.
    Cast { by: Name, body: Body },
    /// To publish a message to the queue.
    Publish { by: Name, body: Body },
    /// To hand out the first ready message.
    Get { by: Name },
    /// To take the first ready message off for good.
    Pop { by: Name },
    /// To acknowledge a message that was handed out.
    Ack { by: Name, at: Position },
    /// To hand a message back that was handed out.
    Requeue { by: Name, at: Position },
    /// To copy the queue to another member.
    Sync { by: Name, target: Name },
    /// To stop.
    Stop { by: Name },
    /// To admit a member of a new name.
    Admit { by: Name, name: Name },
}

impl Client {
    ghost use Rattle.std.specs.Prelude.{◌≡◌, IfOk};
    ghost use Rattle.ring_rules.specs.Event.{asked_of, event_of};

    /// The name of the member of which it is asked.
    pub fn by(&self) -> &Name
        ensures { result.now ≡ asked_of self.now }
    {
        match self {
            Client::Cast { by, body: _ } => by,
            Client::Publish { by, body: _ } => by,
            Client::Get { by } => by,
            Client::Pop { by } => by,
            Client::Ack { by, at: _ } => by,
            Client::Requeue { by, at: _ } => by,
            Client::Sync { by, target: _ } => by,
            Client::Stop { by } => by,
            Client::Admit { by, name: _ } => by,
        }
    }

    /// The event by which the member does it.
    pub fn event(&self) -> Result<Event, OutOfMemory>
        ensures { IfOk result (λ event. event ≡ event_of self.now) }
    {
        match self {
            Client::Cast { by, body } => Ok(Event::Cast {
                by: *by,
                body: body.copy()?,
            }),
            Client::Publish { by, body } => Ok(Event::Publish {
                by: *by,
                body: body.copy()?,
            }),
            Client::Get { by } => Ok(Event::Get { by: *by }),
            Client::Pop { by } => Ok(Event::Pop { by: *by }),
            Client::Ack { by, at } => Ok(Event::Ack { by: *by, at: *at }),
            Client::Requeue { by, at } => Ok(Event::Requeue { by: *by, at: *at }),
            Client::Sync { by, target } => Ok(Event::Sync {
                by: *by,
                target: *target,
            }),
            Client::Stop { by } => Ok(Event::Stop { by: *by }),
            Client::Admit { by, name } => Ok(Event::Admit {
                by: *by,
                name: *name,
            }),
        }
    }

    /// An equal one.
    pub fn copy(&self) -> Result<Client, OutOfMemory>
        ensures { IfOk result (λ client. client ≡ self.now) }
    {
        match self {
            Client::Cast { by, body } => Ok(Client::Cast {
                by: *by,
                body: body.copy()?,
            }),
            Client::Publish { by, body } => Ok(Client::Publish {
                by: *by,
                body: body.copy()?,
            }),
            Client::Get { by } => Ok(Client::Get { by: *by }),
            Client::Pop { by } => Ok(Client::Pop { by: *by }),
            Client::Ack { by, at } => Ok(Client::Ack { by: *by, at: *at }),
            Client::Requeue { by, at } => Ok(Client::Requeue { by: *by, at: *at }),
            Client::Sync { by, target } => Ok(Client::Sync {
                by: *by,
                target: *target,
            }),
            Client::Stop { by } => Ok(Client::Stop { by: *by }),
            Client::Admit { by, name } => Ok(Client::Admit {
                by: *by,
                name: *name,
            }),
        }
    }
}

impl Event {
    /// The name of the member that acts.
    pub fn by(&self) -> &Name
        ensures { result.now ≡ by_of self.now }
    {
        match self {
            Event::Cast { by, body: _ } => by,
            Event::Publish { by, body: _ } => by,
            Event::Get { by } => by,
            Event::Pop { by } => by,
            Event::Ack { by, at: _ } => by,
            Event::Requeue { by, at: _ } => by,
            Event::Depth { by } => by,
            Event::Start { by } => by,
            Event::Sync { by, target: _ } => by,
            Event::Put { by } => by,
            Event::Take { by } => by,
            Event::TakeEnd { by } => by,
            Event::Gain { by } => by,
            Event::Stop { by } => by,
            Event::Mark { by, dead: _ } => by,
            Event::Refresh { by, view: _ } => by,
            Event::Admit { by, name: _ } => by,
            Event::Pick { by } => by,
            Event::Erase { by, origin: _ } => by,
            Event::Synced { by } => by,
            Event::SyncPut { by } => by,
            Event::SyncTake { by } => by,
            Event::SyncGain { by } => by,
            Event::Refuse { code: _, inner } => inner.by(),
        }
    }

    /// Whether it is a refusal, which leaves the ring as it is.
    pub fn is_refusal(&self) -> bool
        ensures { result ≡ refusal_is self.now }
    {
        matches!(self, Event::Refuse { .. })
    }

    /// An equal event.
    pub fn copy(&self) -> Result<Event, OutOfMemory>
        ensures { IfOk result (λ event. event ≡ self.now) }
    {
        match self {
            Event::Cast { by, body } => Ok(Event::Cast {
                by: *by,
                body: body.copy()?,
            }),
            Event::Publish { by, body } => Ok(Event::Publish {
                by: *by,
                body: body.copy()?,
            }),
            Event::Get { by } => Ok(Event::Get { by: *by }),
            Event::Pop { by } => Ok(Event::Pop { by: *by }),
            Event::Ack { by, at } => Ok(Event::Ack { by: *by, at: *at }),
            Event::Requeue { by, at } => Ok(Event::Requeue { by: *by, at: *at }),
            Event::Depth { by } => Ok(Event::Depth { by: *by }),
            Event::Start { by } => Ok(Event::Start { by: *by }),
            Event::Sync { by, target } => Ok(Event::Sync {
                by: *by,
                target: *target,
            }),
            Event::Put { by } => Ok(Event::Put { by: *by }),
            Event::Take { by } => Ok(Event::Take { by: *by }),
            Event::TakeEnd { by } => Ok(Event::TakeEnd { by: *by }),
            Event::Gain { by } => Ok(Event::Gain { by: *by }),
            Event::Stop { by } => Ok(Event::Stop { by: *by }),
            Event::Mark { by, dead } => Ok(Event::Mark {
                by: *by,
                dead: *dead,
            }),
            Event::Refresh { by, view } => Ok(Event::Refresh {
                by: *by,
                view: *view,
            }),
            Event::Admit { by, name } => Ok(Event::Admit {
                by: *by,
                name: *name,
            }),
            Event::Pick { by } => Ok(Event::Pick { by: *by }),
            Event::Erase { by, origin } => Ok(Event::Erase {
                by: *by,
                origin: *origin,
            }),
            Event::Synced { by } => Ok(Event::Synced { by: *by }),
            Event::SyncPut { by } => Ok(Event::SyncPut { by: *by }),
            Event::SyncTake { by } => Ok(Event::SyncTake { by: *by }),
            Event::SyncGain { by } => Ok(Event::SyncGain { by: *by }),
            Event::Refuse { code, inner } => Ok(Event::Refuse {
                code: *code,
                inner: inner.copy()?,
            }),
        }
    }
}
