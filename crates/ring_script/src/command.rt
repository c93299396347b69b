//! Commands.
ghost use Rattle.std.specs.Prelude.{◌≡◌, IfOk};
ghost use Rattle.std.specs.Option.{option_to_list};
ghost use Rattle.ring_script.specs.Script.{joined_by};

use ring_names::{Body, Name, OutOfMemory, Position};

/// One line of a script behind the first.
#[derive(Drop, Debug)]
pub enum Command {
    /// The member multicasts a message.
    Cast { by: Name, body: Body },
    /// The member publishes a message to its queue.
    Publish { by: Name, body: Body },
    /// The member hands out the first ready message of its queue.
    Get { by: Name },
    /// The member takes the first ready message of its queue off for good.
    Pop { by: Name },
    /// The member has the message at a position acknowledged.
    Ack { by: Name, at: Position },
    /// The member has the message at a position handed back.
    Requeue { by: Name, at: Position },
    /// The member has a newcomer of this name join the ring.
    Join { by: Name, name: Name },
    /// The member stops.
    Kill { by: Name },
    /// The members take so many turns each.
    Go { turns: u32 },
    /// The ring works until nothing is left to do.
    Settle,
}

impl Command {
    /// An equal command.
    pub fn copy(&self) -> Result<Command, OutOfMemory>
        ensures { IfOk result (λ command. command ≡ self.now) }
    {
        match self {
            Command::Cast { by, body } => Ok(Command::Cast {
                by: *by,
                body: body.copy()?,
            }),
            Command::Publish { by, body } => Ok(Command::Publish {
                by: *by,
                body: body.copy()?,
            }),
            Command::Get { by } => Ok(Command::Get { by: *by }),
            Command::Pop { by } => Ok(Command::Pop { by: *by }),
            Command::Ack { by, at } => Ok(Command::Ack { by: *by, at: *at }),
            Command::Requeue { by, at } => Ok(Command::Requeue { by: *by, at: *at }),
            Command::Join { by, name } => Ok(Command::Join {
                by: *by,
                name: *name,
            }),
            Command::Kill { by } => Ok(Command::Kill { by: *by }),
            Command::Go { turns } => Ok(Command::Go { turns: *turns }),
            Command::Settle => Ok(Command::Settle),
        }
    }

    /// The name that it has join, if it has one.
    pub(crate) fn joined(&self) -> Option<Name>
        ensures { option_to_list result ≡ joined_by self.now }
    {
        match self {
            Command::Join { by: _, name } => Some(*name),
            Command::Cast { .. } | Command::Publish { .. } => None,
            Command::Get { .. } | Command::Pop { .. } => None,
            Command::Ack { .. } | Command::Requeue { .. } => None,
            Command::Kill { .. } | Command::Go { .. } | Command::Settle => None,
        }
    }
}
