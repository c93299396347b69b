//! What the machine answers to a line.
ghost use Rattle.std.specs.Prelude.{IsSome, IfOk};
ghost use Rattle.ring_rules.specs.Event.{id_of};

use queue_core::{CopyState, Message};
use ring_names::{Body, Name, Position};
use ring_rules::{Client, Event, Refused};
use ring_script::{number, read_steps};
use ring_world::World;
use std::alloc::Global;
use std::process::Abort;
use std::test::Fail;

/// The word that a line begins with, and what follows it.
fn first_word(line: &str) -> (&str, &str) {
    line.split_once(' ').unwrap_or((line, ""))
}

/// What the machine answers to a question, or to an event.
pub(crate) fn answer(
    rt: &(impl Abort + AllocGlobal),
    world: &mut World,
    line: &str,
) -> Result<String, Fail> {
    let alloc = rt.alloc();
    let (asked, of) = first_word(line);
    match asked {
        "view" => Ok(format!(in alloc; "{}", world.view().version)?),
        "quiet" => Ok(format!(in alloc; "{}", world.quiet())?),
        "member" => Ok(format!(in alloc; "{:?}", world.member(&name(of)?))?),
        "walk" => Ok(format!(in alloc; "{:?}", world.walk(&name(of)?)?)?),
        "state" => state(alloc, world, of),
        "counts" => counts(alloc, world, of),
        "heard" => heard(alloc, world, of),
        "items" => items(alloc, world, of),
        "refusals" => refusals(alloc, world.refusals()),
        _ => step(rt, world, line),
    }
}

/// What the machine answers to the event of a line.
fn step(rt: &(impl Abort + AllocGlobal), world: &mut World, line: &str) -> Result<String, Fail> {
    let event = event(rt.alloc(), line)?;
    happen(rt, world, &event)
}

/// The event of a line: one that a step file has, or an admission, an erasure, a refusal or one of the queue.
fn event(alloc: Global, line: &str) -> Result<Event, Fail> {
    let (word, rest) = first_word(line);
    let (first, second) = first_word(rest);
    match word {
        "admit" => Ok(Event::Admit {
            by: name(first)?,
            name: name(second)?,
        }),
        "erase" => Ok(Event::Erase {
            by: name(first)?,
            origin: name(second)?,
        }),
        "refuse" => Ok(Event::Refuse {
            code: code(first)?,
            inner: client(alloc, second)?,
        }),
        "publish" => Ok(Event::Publish {
            by: name(first)?,
            body: Body::read(alloc, second.as_bytes())?,
        }),
        "get" => Ok(Event::Get { by: name(first)? }),
        "pop" => Ok(Event::Pop { by: name(first)? }),
        "ack" => Ok(Event::Ack {
            by: name(first)?,
            at: position(second)?,
        }),
        "requeue" => Ok(Event::Requeue {
            by: name(first)?,
            at: position(second)?,
        }),
        "depth" => Ok(Event::Depth { by: name(first)? }),
        "start" => Ok(Event::Start { by: name(first)? }),
        "synced" => Ok(Event::Synced { by: name(first)? }),
        _ => step_event(alloc, line),
    }
}

/// A position.
fn position(text: &str) -> Result<Position, Fail> {
    Ok(Position(text.parse()?))
}

/// The number of a refusal.
fn code(text: &str) -> Result<u32, Fail> {
    match number(text.as_bytes(), 99) {
        Some(code) => Ok(code as u32),
        None => Err(Fail::new("no number")),
    }
}

/// The event of a line of a step file.
fn step_event(alloc: Global, line: &str) -> Result<Event, Fail> {
    let text = format!(in alloc; "members a\n{line}")?;
    let steps = read_steps(alloc, text.as_bytes())?;
    match steps.lines.as_slice() {
        [(_, event)] => Ok(event.copy()?),
        _ => Err(Fail::new("no event")),
    }
}

/// What a client asks by the words of its event.
fn client(alloc: Global, line: &str) -> Result<Client, Fail> {
    let (word, rest) = first_word(line);
    let (by, rest) = first_word(rest);
    let by = name(by)?;
    match word {
        "cast" => Ok(Client::Cast {
            by,
            body: Body::read(alloc, rest.as_bytes())?,
        }),
        "publish" => Ok(Client::Publish {
            by,
            body: Body::read(alloc, rest.as_bytes())?,
        }),
        "get" => Ok(Client::Get { by }),
        "pop" => Ok(Client::Pop { by }),
        "ack" => Ok(Client::Ack {
            by,
            at: position(rest)?,
        }),
        "requeue" => Ok(Client::Requeue {
            by,
            at: position(rest)?,
        }),
        "stop" => Ok(Client::Stop { by }),
        "admit" => Ok(Client::Admit {
            by,
            name: name(rest)?,
        }),
        _ => Err(Fail::new("nothing asked")),
    }
}

/// What was refused, each with its number.
fn refusals(alloc: Global, events: &[Event]) -> Result<String, Fail> {
    let mut told = String::new(alloc);
    for event in events {
        if let Event::Refuse { code, inner } = event {
            if !told.is_empty() {
                told.push_str(", ")?;
            }
            let asked = asked(alloc, inner)?;
            told.push_str(format!(in alloc; "{code} {asked}")?.as_str())?;
        }
    }
    Ok(told)
}

/// The words of what a client asks.
fn asked(alloc: Global, client: &Client) -> Result<String, Fail> {
    let by = str::from_utf8(client.by().bytes())?;
    match client {
        Client::Cast { by: _, body } => {
            let body = str::from_utf8(body.bytes())?;
            Ok(format!(in alloc; "cast {by} {body}")?)
        }
        Client::Publish { by: _, body } => {
            let body = str::from_utf8(body.bytes())?;
            Ok(format!(in alloc; "publish {by} {body}")?)
        }
        Client::Get { by: _ } => Ok(format!(in alloc; "get {by}")?),
        Client::Pop { by: _ } => Ok(format!(in alloc; "pop {by}")?),
        Client::Ack { by: _, at } => Ok(format!(in alloc; "ack {by} {}", at.0)?),
        Client::Requeue { by: _, at } => Ok(format!(in alloc; "requeue {by} {}", at.0)?),
        Client::Stop { by: _ } => Ok(format!(in alloc; "stop {by}")?),
        Client::Admit { by: _, name } => {
            let name = str::from_utf8(name.bytes())?;
            Ok(format!(in alloc; "admit {by} {name}")?)
        }
        Client::Sync { by: _, target } => {
            let target = str::from_utf8(target.bytes())?;
            Ok(format!(in alloc; "sync {by} {target}")?)
        }
    }
}

/// The event happens, and the answer is empty; or it is refused, and the answer gives the reason.
fn happen(
    rt: &(impl Abort + AllocGlobal),
    world: &mut World,
    event: &Event,
) -> Result<String, Fail> {
    match world.enabled(event) {
        Ok(()) => {
            world.apply(event)?;
            Ok(String::new(rt.alloc()))
        }
        Err(reason) => {
            assert_eq!(rt; world.apply(event), Err(Refused::NotEnabled(reason)));
            Ok(format!(in rt.alloc(); "refused {} {reason:?}", reason.code())?)
        }
    }
}

fn name(text: &str) -> Result<Name, Fail> {
    Ok(Name::read(text.as_bytes())?)
}

/// The name of a member that the ring has.
fn member(world: &World, text: &str) -> Result<Name, Fail>
    ensures { IfOk result (λ name. IsSome (id_of (world.now).ring name)) }
{
    let name = name(text)?;
    match world.member(&name) {
        Some(_) => Ok(name),
        None => Err(Fail::new("no member")),
    }
}

/// Where a member stands.
fn state(alloc: Global, world: &World, of: &str) -> Result<String, Fail> {
    let of = member(world, of)?;
    Ok(format!(in alloc; "{:?}", world.state(&of))?)
}

/// How many casts and publishes of a member stand in its log, and how many of them are confirmed.
fn counts(alloc: Global, world: &World, by: &str) -> Result<String, Fail> {
    let by = member(world, by)?;
    let counts = world.counts(&by);
    Ok(format!(in alloc;
        "casts {} confirmed {} publishes {} confirmed {}",
        counts.casts, counts.casts_confirmed, counts.publishes, counts.publishes_confirmed
    )?)
}

/// How an item of a queue stands.
fn sign(state: CopyState) -> &'static str {
    match state {
        CopyState::Ready => "",
        CopyState::Again => "+",
        CopyState::Unacked => "*",
    }
}

/// The items of positions below 10 that the mirror of a member holds.
fn items(alloc: Global, world: &World, of: &str) -> Result<String, Fail> {
    let of = member(world, of)?;
    let mut told = String::new(alloc);
    for at in 1..10u64 {
        if let Some(held) = world.item_from(&of, Position(at)) {
            if held.at.0 == at {
                if !told.is_empty() {
                    told.push_str(", ")?;
                }
                let body = str::from_utf8(held.body.bytes())?;
                write!(told, "{at}{} {body}", sign(held.state))?;
            }
        }
    }
    Ok(told)
}

/// The bodies of what one member has heard of another.
fn heard(alloc: Global, world: &World, pair: &str) -> Result<String, Fail> {
    let (by, of) = first_word(pair);
    let by = member(world, by)?;
    let of = member(world, of)?;
    bodies(alloc, &world.heard(&by, &of)?)
}

/// The bodies of casts among messages, each behind a space.
fn bodies(alloc: Global, messages: &[Message]) -> Result<String, Fail> {
    let mut told = String::new(alloc);
    for message in messages {
        if let Message::Cast(body) = message {
            told.push(' ')?;
            told.push_str(str::from_utf8(body.bytes())?)?;
        }
    }
    Ok(told)
}
