//! A queue, line by line: what is done or asked and, behind `=`, the next position, the number of items, the least
//! ready position and the items. 0 stands for nothing ready; a body stands behind its position, with `+` where the
//! item is ready again, and with `*` where it is handed out. `delivered` tells the number of the refusal, or `yes`, and
//! `cast` the body of a message that isn't the queue's. Each operation is done in a second queue too, in room that is
//! made for it before.
use crate::*;
use ring_names::{Body, MemberId, Position};
use std::alloc::Global;
use std::str::from_utf8;
use std::test::Fail;

const LINES: &str = "\
publish 1 a = 2 1 1 1a
publish 2 b = 3 2 1 1a 2b
publish 5 c = 6 3 1 1a 2b 5c
publish 5 d = 6 3 1 1a 2b 5c
publish 4 d = 6 3 1 1a 2b 5c
publish 18446744073709551615 d = 6 3 1 1a 2b 5c
delivered 1 = 30
delivered 3 = 29
deliver 1 = 6 3 2 1a* 2b 5c
delivered 1 = yes
deliver 1 = 6 3 2 1a* 2b 5c
deliver 5 = 6 3 2 1a* 2b 5c*
drop 5 = 6 3 2 1a* 2b 5c*
drop 2 = 6 2 0 1a* 5c*
ack 2 = 6 2 0 1a* 5c*
requeue 1 = 6 2 1 1a+ 5c*
requeue 1 = 6 2 1 1a+ 5c*
ack 1 = 6 2 1 1a+ 5c*
deliver 1 = 6 2 0 1a* 5c*
publish 6 e = 7 3 6 1a* 5c* 6e
depth 3 = 7 3 6 1a* 5c* 6e
mark 2 = 7 3 6 1a* 5c* 6e
start 3 = 7 3 1 1a+ 5c+ 6e
deliver 1 = 7 3 5 1a* 5c+ 6e
ack 1 = 7 2 5 5c+ 6e
raise 4 = 7 2 5 5c+ 6e
raise 9 = 9 2 5 5c+ 6e
drop 5 = 9 1 6 6e
drop 6 = 9 0 0
publish 3 f = 4 1 3 3f
publish 18446744073709551614 g = 18446744073709551615 2 3 3f
publish 18446744073709551614 h = 18446744073709551615 2 3 3f
cast i = i";

fn text_of(body: &Body) -> Result<&str, Fail> {
    Ok(from_utf8(body.bytes()).map_err(|_| "no text")?)
}

fn sign(state: CopyState) -> &'static str {
    match state {
        CopyState::Ready => "",
        CopyState::Again => "+",
        CopyState::Unacked => "*",
    }
}

/// The next position, the number of items, the least ready position and the items below position 10.
fn shown(alloc: Global, queue: &Queue) -> Result<String, Fail> {
    let least = match queue.least() {
        Ok(at) => at.0,
        Err(_) => 0,
    };
    let mut text = format!(in alloc; "{} {} {least}", queue.next().0, queue.depth())?;
    for at in 0..10u64 {
        if let Some(held) = queue.item_from(Position(at)) {
            if held.at.0 == at {
                write!(text, " {at}{}{}", text_of(held.body)?, sign(held.state))?;
            }
        }
    }
    Ok(text)
}

/// The operation of a line, or nothing where the line asks or raises.
fn op_of(alloc: Global, word: &str, of: &str) -> Result<Option<Op>, Fail> {
    let (number, body) = of.split_once(' ').unwrap_or((of, ""));
    let number: u64 = number.parse()?;
    let at = Position(number);
    Ok(match word {
        "publish" => Some(Op::Publish {
            at,
            body: Body::read(alloc, body.as_bytes())?,
        }),
        "deliver" => Some(Op::Deliver { at }),
        "drop" => Some(Op::Drop { at }),
        "ack" => Some(Op::Ack { at }),
        "requeue" => Some(Op::Requeue { at }),
        "depth" => Some(Op::Depth { depth: number }),
        "start" => Some(Op::Start { depth: number }),
        "mark" => Some(Op::SyncMark {
            target: MemberId(of.parse()?),
        }),
        _ => None,
    })
}

/// The message of a line, or nothing where the line asks or raises.
fn message_of(alloc: Global, word: &str, of: &str) -> Result<Option<Message>, Fail> {
    if word == "cast" {
        return Ok(Some(Message::Cast(Body::read(alloc, of.as_bytes())?)));
    }
    Ok(op_of(alloc, word, of)?.map(Message::Queue))
}

/// A queue that memory was wanting for is as it was before.
fn must_be(alloc: Global, queue: &Queue, before: &String) -> Result<(), Fail> {
    let after = shown(alloc, queue)?;
    if after.as_str() != before.as_str() {
        return Err(Fail::new("what failed changes the queue"));
    }
    Ok(())
}

/// An operation is done, and again where an allocation failed, which may change nothing.
fn apply(alloc: Global, queue: &mut Queue, op: &Op) -> Result<(), Fail> {
    let before = shown(alloc, queue)?;
    if queue.apply(op).is_err() {
        must_be(alloc, queue, &before)?;
        queue.apply(op)?;
    }
    Ok(())
}

/// The same in room that is made for it before.
fn apply_reserved(alloc: Global, queue: &mut Queue, op: Op) -> Result<(), Fail> {
    let before = shown(alloc, queue)?;
    if queue.reserve(1).is_err() {
        must_be(alloc, queue, &before)?;
    }
    queue.reserve(1)?;
    queue.apply_reserved(op);
    Ok(())
}

fn told(
    alloc: Global,
    queue: &mut Queue,
    word: &str,
    of: &str,
    is_reserved: bool,
) -> Result<String, Fail> {
    if let Some(message) = message_of(alloc, word, of)? {
        return match message.copy()? {
            Message::Cast(body) => Ok(String::from_str(alloc, text_of(&body)?)?),
            Message::Queue(op) if is_reserved => {
                apply_reserved(alloc, queue, op)?;
                shown(alloc, queue)
            }
            Message::Queue(op) => {
                apply(alloc, queue, &op)?;
                shown(alloc, queue)
            }
        };
    }
    let at = Position(of.parse()?);
    if word == "raise" {
        queue.raise_next(at);
        return shown(alloc, queue);
    }
    match queue.delivered(at) {
        Ok(()) => Ok(String::from_str(alloc, "yes")?),
        Err(reason) => Ok(format!(in alloc; "{}", reason.code())?),
    }
}

#[test]
fn plays_each_line(rt: HostRuntime) -> Result<(), Fail> {
    let mut queue = Queue::new(rt.alloc());
    let mut reserved = Queue::new(rt.alloc());
    for line in LINES.lines() {
        let (done, wanted) = line.split_once(" = ").ok_or("nothing wanted")?;
        let (word, of) = done.split_once(' ').ok_or("no number")?;
        let text = told(rt.alloc(), &mut queue, word, of, false)?;
        assert_eq!(rt; text.as_str(), wanted, "at {line}");
        let same = told(rt.alloc(), &mut reserved, word, of, true)?;
        assert_eq!(rt; same.as_str(), wanted, "in room made before, at {line}");
    }
    Ok(())
}
