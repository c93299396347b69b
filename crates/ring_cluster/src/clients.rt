//! What clients ask of members, and how that is answered.
ghost use Rattle.std.specs.Prelude.{◌≡◌, true, false, Some, IfOk, MatchOption};
ghost use Rattle.ring_rules.specs.Event.{is_passing as is_passing_reason};
ghost use Rattle.ring_cluster.specs.Agendas.{IsForNoCopy};
ghost use Rattle.ring_cluster.specs.Plays.{IsOfMember, client_of as the_client, answer_by};

use ring_names::{OutOfMemory, Reason};
use ring_parties::is_passing;
use ring_rules::{Client, Event};
use ring_script::Command;

/// What a command asks of a member: the caller gives none of the whole ring.
pub(crate) fn client_of(command: &Command) -> Result<Client, OutOfMemory>
    requires { IsOfMember command.now }
    ensures client { IfOk result (λ task. the_client command.now ≡ Some task) }
    ensures no_copy { IfOk result IsForNoCopy }
{
    match command {
        Command::Cast { by, body } => Ok(Client::Cast {
            by: *by,
            body: body.copy()?,
        }),
        Command::Publish { by, body } => Ok(Client::Publish {
            by: *by,
            body: body.copy()?,
        }),
        Command::Get { by } => Ok(Client::Get { by: *by }),
        Command::Pop { by } => Ok(Client::Pop { by: *by }),
        Command::Ack { by, at } => Ok(Client::Ack { by: *by, at: *at }),
        Command::Requeue { by, at } => Ok(Client::Requeue { by: *by, at: *at }),
        Command::Join { by, name } => Ok(Client::Admit {
            by: *by,
            name: *name,
        }),
        Command::Kill { by } => Ok(Client::Stop { by: *by }),
        Command::Go { .. } | Command::Settle => unreachable!(),
    }
}

/// The event by which its member refuses it, for this reason.
pub(crate) fn refusal_of(task: &Client, reason: Reason) -> Result<Event, OutOfMemory>
    ensures { IfOk result (λ event. event ≡ answer_by task.now (Some reason)) }
{
    let inner = task.copy()?;
    Ok(Event::Refuse {
        code: reason.code(),
        inner,
    })
}

/// The same, where that reason doesn't pass by itself.
pub(crate) fn refuses(task: &Client, reason: Reason) -> Result<Option<Event>, OutOfMemory>
    ensures { IfOk result (λ answer. MatchOption answer (is_passing_reason reason ≡ true)
        (λ event. (event ≡ answer_by task.now (Some reason)) × (is_passing_reason reason ≡ false))) }
{
    if is_passing(&reason) {
        return Ok(None);
    }
    Ok(Some(refusal_of(task, reason)?))
}
