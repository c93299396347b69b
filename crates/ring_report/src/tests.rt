//! A ring whose master serves its queue, while one stops and two join, as it is told; and a refusal by itself.
use crate::{push_refusals, report, summary};
use ring_names::{Body, CreditSpec, Name, Position};
use ring_rules::{Client, Event};
use ring_world::{World, are_opening_names};
use std::alloc::Global;
use std::test::Fail;

/// What happens in the ring of `a` and `b`, a word, a name and what is further said.
const EVENTS: [(&str, &str, &str); 15] = [
    ("cast", "a", "hi"),
    ("publish", "a", "x"),
    ("publish", "a", "y"),
    ("publish", "a", "z"),
    ("get", "a", ""),
    ("get", "a", ""),
    ("requeue", "a", "1"),
    ("put", "a", ""),
    ("take", "b", ""),
    ("refused", "b", ""),
    ("cast", "b", "yo"),
    ("admit", "a", "n"),
    ("stop", "b", ""),
    ("take", "n", ""),
    ("admit", "n", "o"),
];

/// The report behind it.
const REPORT: &str = "ring view=3 term=1 master=a
member a up synced
casts 1 confirmed 0
publishes 3 confirmed 0
heard a hi
again 1 x
ready 3 z
unacked 2 y
member b stopped
casts 1 confirmed 0
publishes 0 confirmed 0
refused 26 get b
member n up missing=?
casts 0 confirmed 0
publishes 0 confirmed 0
member o waiting
casts 0 confirmed 0
publishes 0 confirmed 0
";

/// The summary of it, behind a script of seven blocks.
const SUMMARY: &str = "blocks 7
members 4 up 2
casts 2 confirmed 0
publishes 3 confirmed 0
master a term 1 view 3
ready 2 unacked 1
";

fn name(text: &str) -> Result<Name, Fail> {
    Ok(Name::read(text.as_bytes())?)
}

fn body(alloc: Global, text: &str) -> Result<Body, Fail> {
    Ok(Body::read(alloc, text.as_bytes())?)
}

fn event(alloc: Global, (word, by, further): (&str, &str, &str)) -> Result<Event, Fail> {
    let by = name(by)?;
    match word {
        "cast" => Ok(Event::Cast {
            by,
            body: body(alloc, further)?,
        }),
        "publish" => Ok(Event::Publish {
            by,
            body: body(alloc, further)?,
        }),
        "get" => Ok(Event::Get { by }),
        "requeue" => Ok(Event::Requeue {
            by,
            at: Position(further.parse()?),
        }),
        "put" => Ok(Event::Put { by }),
        "take" => Ok(Event::Take { by }),
        "stop" => Ok(Event::Stop { by }),
        "admit" => Ok(Event::Admit {
            by,
            name: name(further)?,
        }),
        "refused" => Ok(Event::Refuse {
            code: 26,
            inner: Client::Get { by },
        }),
        _ => Err(Fail::new("no event")),
    }
}

fn opened(alloc: Global) -> Result<World, Fail> {
    let names = vec![in alloc; name("a")?, name("b")?]?;
    let Some(credit) = CreditSpec::new(8, 4) else {
        return Err(Fail::new("no credit"));
    };
    if !are_opening_names(&names) {
        return Err(Fail::new("no opening"));
    }
    Ok(World::opening(alloc, &names, credit)?)
}

#[test]
fn tells_a_served_queue(rt: HostRuntime) -> Result<(), Fail> {
    let alloc = rt.alloc();
    let mut world = opened(alloc)?;
    for line in EVENTS {
        world.apply(&event(alloc, line)?)?;
    }
    let text = report(alloc, &world)?;
    assert_eq!(rt; text.as_slice(), REPORT.as_bytes());
    let text = summary(alloc, &world, 7)?;
    assert_eq!(rt; text.as_slice(), SUMMARY.as_bytes());
    Ok(())
}

/// A refusal is told in the words of a step file, of the member of which it was asked.
#[test]
fn tells_a_refused_copy(rt: HostRuntime) -> Result<(), Fail> {
    let alloc = rt.alloc();
    let by = name("a")?;
    let refusal = Event::Refuse {
        code: 31,
        inner: Client::Sync {
            by,
            target: name("n")?,
        },
    };
    let mut text = Vec::new(alloc);
    push_refusals(alloc, &mut text, &[&refusal], &by)?;
    assert_eq!(rt; text.as_slice(), b"refused 31 sync a n\n".as_slice());
    Ok(())
}
