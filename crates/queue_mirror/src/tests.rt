//! Mirrors and masters, line by line; what is wanted stands behind `=`.
use crate::*;
use group_view::{Entries, Entry, Mark, View};
use queue_core::{CopyState, Op, Queue};
use ring_names::{Body, MemberId, Name, Position, Reason};
use std::alloc::Global;
use std::str::from_utf8;
use std::test::Fail;

/// A mirror that joins behind positions 1 to 3, the first of which is handed out: what it takes and, behind `=`, what
/// is missing, `?` where that isn't known, `!` where the mirror is synchronised, and the items: a body behind its
/// position, with `+` where the item is ready again, and with `*` where it is handed out.
const TAKEN: &str = "\
publish 4 d = ? 4d
ack 1 = ? 4d
depth 3 = 2 4d
drop 2 = 1 4d
deliver 3 = 1 4d
requeue 3 = 1 4d
deliver 4 = 1 4d*
ack 4 = 1
publish 5 e = 1 5e
start 2 = 1 5e
ack 3 = 0! 5e
ack 2 = 0! 5e
deliver 5 = 0! 5e*
requeue 5 = 0! 5e+
drop 5 = 0!
mark 2 = 0!
publish 6 f = 0! 6f
deliver 6 = 0! 6f*
depth 4 = 3 6f*
start 0 = 0! 6f+
depth 9 = 8 6f+
copied 0 = 0!
publish 7 g = 0! 7g";

/// What a founding mirror took, as `TAKEN` has it; then a member by its id, the master, 0 for nobody, the term, and
/// whether the start was published: what it asks and, behind `=`, its operation, or the number of the refusal.
const ASKED: &str = "\
publish 1 a, 1 0 1 no, publish 0 = 27
publish 1 a, 1 2 1 no, publish 0 = 26
publish 1 a, 1 1 1 no, publish 0 = publish 2
publish 1 a, 1 1 2 no, publish 0 = 32
publish 1 a, 1 1 2 yes, publish 0 = publish 2
publish 1 a, 1 0 2 no, get 0 = 27
publish 1 a, 1 2 2 no, get 0 = 26
publish 1 a, 1 1 2 no, get 0 = 32
publish 1 a, 1 1 2 yes, get 0 = deliver 1
mark 2, 1 1 1 no, get 0 = 28
deliver 1, 1 1 1 no, pop 0 = 28
publish 1 a, 1 0 2 no, pop 0 = 27
publish 1 a, 1 2 2 no, pop 0 = 26
publish 1 a, 1 1 2 no, pop 0 = 32
publish 1 a, 2 2 1 no, pop 0 = drop 1
publish 1 a, 1 0 2 no, ack 7 = 27
publish 1 a, 1 2 2 no, ack 7 = 26
publish 1 a, 1 1 2 no, ack 7 = 32
publish 1 a, 1 1 2 yes, ack 7 = 29
publish 1 a, 1 1 2 yes, ack 1 = 30
publish 1 a; deliver 1, 1 1 2 yes, ack 1 = ack 1
publish 1 a, 1 0 2 no, requeue 7 = 27
publish 1 a, 1 2 2 no, requeue 7 = 26
publish 1 a, 1 1 2 no, requeue 7 = 32
publish 1 a, 1 1 1 no, requeue 7 = 29
publish 1 a, 1 1 1 no, requeue 1 = 30
publish 1 a; deliver 1, 1 1 1 no, requeue 1 = requeue 1
publish 1 a; publish 2 b; deliver 1, 1 1 1 no, get 0 = deliver 2
publish 1 a; publish 2 b; deliver 1; deliver 2; requeue 2, 1 1 1 no, pop 0 = drop 2
publish 1 a, 1 0 2 no, depth 0 = 27
publish 1 a, 1 2 2 no, depth 0 = 26
publish 1 a, 1 1 2 no, depth 0 = 32
publish 1 a; publish 2 b; deliver 1, 1 1 1 no, depth 0 = depth 2
publish 1 a; drop 1, 1 1 2 yes, depth 0 = depth 0
publish 1 a, 1 0 2 no, start 0 = 27
publish 1 a, 1 2 2 no, start 0 = 26
publish 1 a, 1 1 1 no, start 0 = 41
publish 1 a, 1 1 2 yes, start 0 = 41
publish 1 a; publish 2 b; deliver 1, 1 1 2 no, start 0 = start 2";

fn text_of(body: &Body) -> Result<&str, Fail> {
    Ok(from_utf8(body.bytes()).map_err(|_| "no text")?)
}

fn sign(state: CopyState) -> &'static str {
    match state {
        CopyState::Ready => "",
        CopyState::Again => "+",
        CopyState::Unacked => "*",
    }
}

fn shown(alloc: Global, mirror: &Mirror) -> Result<String, Fail> {
    let mut text = match mirror.missing() {
        Some(missing) => format!(in alloc; "{missing}")?,
        None => String::from_str(alloc, "?")?,
    };
    if mirror.is_synced() {
        text.push('!')?;
    }
    for at in 0..10u64 {
        if let Some(held) = mirror.queue().item_from(Position(at)) {
            if held.at.0 == at {
                write!(text, " {at}{}{}", text_of(held.body)?, sign(held.state))?;
            }
        }
    }
    Ok(text)
}

fn op_of(alloc: Global, text: &str) -> Result<Op, Fail> {
    let (word, of) = text.split_once(' ').ok_or("no number")?;
    let (number, body) = of.split_once(' ').unwrap_or((of, ""));
    let number: u64 = number.parse()?;
    let at = Position(number);
    Ok(match word {
        "publish" => Op::Publish {
            at,
            body: Body::read(alloc, body.as_bytes())?,
        },
        "deliver" => Op::Deliver { at },
        "drop" => Op::Drop { at },
        "ack" => Op::Ack { at },
        "requeue" => Op::Requeue { at },
        "depth" => Op::Depth { depth: number },
        "start" => Op::Start { depth: number },
        _ => Op::SyncMark {
            target: MemberId(of.parse()?),
        },
    })
}

/// A mirror that memory was wanting for is as it was before.
fn must_be(alloc: Global, mirror: &Mirror, before: &String) -> Result<(), Fail> {
    let after = shown(alloc, mirror)?;
    if after.as_str() != before.as_str() {
        return Err(Fail::new("what failed changes the mirror"));
    }
    Ok(())
}

/// An operation is taken, and again where an allocation failed, which may change nothing.
fn take(alloc: Global, mirror: &mut Mirror, op: &Op) -> Result<(), Fail> {
    let before = shown(alloc, mirror)?;
    if mirror.apply_op(op).is_err() {
        must_be(alloc, mirror, &before)?;
        mirror.apply_op(op)?;
    }
    Ok(())
}

/// The same in room that is made for it before.
fn take_reserved(alloc: Global, mirror: &mut Mirror, op: Op) -> Result<(), Fail> {
    let before = shown(alloc, mirror)?;
    if mirror.reserve(1).is_err() {
        must_be(alloc, mirror, &before)?;
    }
    mirror.reserve(1)?;
    mirror.apply_reserved(op);
    Ok(())
}

#[test]
fn a_joined_mirror_takes_each_line(rt: HostRuntime) -> Result<(), Fail> {
    let mut mirror = Mirror::joining(rt.alloc());
    let mut reserved = Mirror::joining(rt.alloc());
    for line in TAKEN.lines() {
        let (done, wanted) = line.split_once(" = ").ok_or("nothing wanted")?;
        if done.starts_with("copied") {
            mirror.copied(Queue::new(rt.alloc()));
            reserved.copied(Queue::new(rt.alloc()));
        } else {
            let op = op_of(rt.alloc(), done)?;
            take(rt.alloc(), &mut mirror, &op)?;
            take_reserved(rt.alloc(), &mut reserved, op)?;
        }
        let text = shown(rt.alloc(), &mirror)?;
        assert_eq!(rt; text.as_str(), wanted, "at {line}");
        let same = shown(rt.alloc(), &reserved)?;
        assert_eq!(rt; same.as_str(), wanted, "in room made before, at {line}");
    }
    Ok(())
}

/// A view with this master in this term, 1 or 2; its one entry is erased, which no master's call reads.
fn view(alloc: Global, master: u32, term: u32) -> Result<View, Fail> {
    let mut entries = Vec::new(alloc);
    entries.push(Entry {
        id: MemberId(1),
        name: Name::read(b"a")?,
        mark: Mark::Erased,
        synced: true,
        joined: 1,
        since: 1,
    })?;
    Ok(View {
        version: 3,
        entries: Entries::from_vec(entries),
        master: if master == 0 {
            None
        } else {
            Some(MemberId(master))
        },
        term: term.min(2),
        next_id: 2,
    })
}

/// The operation in the words of a line.
fn told(alloc: Global, op: &Op) -> Result<String, Fail> {
    Ok(match op {
        Op::Publish { at, .. } => format!(in alloc; "publish {}", at.0)?,
        Op::Deliver { at } => format!(in alloc; "deliver {}", at.0)?,
        Op::Drop { at } => format!(in alloc; "drop {}", at.0)?,
        Op::Ack { at } => format!(in alloc; "ack {}", at.0)?,
        Op::Requeue { at } => format!(in alloc; "requeue {}", at.0)?,
        Op::Depth { depth } => format!(in alloc; "depth {depth}")?,
        Op::Start { depth } => format!(in alloc; "start {depth}")?,
        _ => String::from_str(alloc, "?")?,
    })
}

/// What a member answers: by its id, its view and whether its start was published.
fn ask(
    alloc: Global,
    mirror: &Mirror,
    view: &View,
    me: MemberId,
    started: bool,
    asked: &str,
) -> Result<Result<Op, Reason>, Fail> {
    let (word, number) = asked.split_once(' ').ok_or("no number")?;
    let at = Position(number.parse()?);
    Ok(match word {
        "publish" => {
            let body = Body::read(alloc, b"x")?;
            match Master::publish(mirror, view, me, started, body) {
                Ok(op) => Ok(op),
                Err((_body, reason)) => Err(reason),
            }
        }
        "get" => Master::get(mirror, view, me, started),
        "pop" => Master::pop(mirror, view, me, started),
        "ack" => Master::ack(mirror, view, me, started, at),
        "requeue" => Master::requeue(mirror, view, me, started, at),
        "depth" => Master::depth(mirror, view, me, started),
        _ => Master::start(mirror, view, me, started),
    })
}

/// What is answered behind operations, to a member that stands so.
fn answered(alloc: Global, ops: &str, stands: &str, asked: &str) -> Result<String, Fail> {
    let mut mirror = Mirror::founding(alloc);
    for op in ops.split("; ") {
        take(alloc, &mut mirror, &op_of(alloc, op)?)?;
    }
    let mut words = stands.split(' ');
    let me = MemberId(words.next().ok_or("no member")?.parse()?);
    let master: u32 = words.next().ok_or("no master")?.parse()?;
    let term: u32 = words.next().ok_or("no term")?.parse()?;
    let started = words.next() == Some("yes");
    let view = view(alloc, master, term)?;
    match ask(alloc, &mirror, &view, me, started, asked)? {
        Ok(op) => told(alloc, &op),
        Err(reason) => Ok(format!(in alloc; "{}", reason.code())?),
    }
}

#[test]
fn a_master_answers_each_line(rt: HostRuntime) -> Result<(), Fail> {
    for line in ASKED.lines() {
        let (done, wanted) = line.split_once(" = ").ok_or("nothing wanted")?;
        let (ops, rest) = done.split_once(", ").ok_or("no member")?;
        let (stands, asked) = rest.split_once(", ").ok_or("nothing asked")?;
        let text = answered(rt.alloc(), ops, stands, asked)?;
        assert_eq!(rt; text.as_str(), wanted, "at {line}");
    }
    Ok(())
}
