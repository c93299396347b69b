//! A copy, line by line; what is wanted stands behind `=`.
use crate::*;
use queue_core::{CopyState, Op, Queue};
use queue_mirror::Mirror;
use ring_names::{Body, CreditSpec, MemberId, Position};
use std::alloc::Global;
use std::str::from_utf8;
use std::test::Fail;

/// What was done to the master's queue before the mark: its first item is handed out, its second is ready again.
const BEFORE: &str = "\
publish 1 a
publish 2 b
publish 3 c
deliver 1
deliver 2
requeue 2";

/// What the receiver takes: the next load, `mark`, an operation since then, or all of it for its mirror, which has position
/// 9 already. An item is its position and body, with `+` where it is ready again, and with `*` where it is handed out.
const TAKEN: &str = "\
next = 1a*
next = 2b+
all = 35
mark =
ack 1 =
publish 4 d =
next = 3c
deliver 2 =
next = done
next = none
all = 0, next 10, 2b* 3c 4d
all = 35";

fn sign(state: CopyState) -> &'static str {
    match state {
        CopyState::Ready => "",
        CopyState::Again => "+",
        CopyState::Unacked => "*",
    }
}

fn op_of(alloc: Global, text: &str) -> Result<Op, Fail> {
    let (word, of) = text.split_once(' ').ok_or("no number")?;
    let (number, body) = of.split_once(' ').unwrap_or((of, ""));
    let at = Position(number.parse()?);
    Ok(match word {
        "publish" => Op::Publish {
            at,
            body: Body::read(alloc, body.as_bytes())?,
        },
        "deliver" => Op::Deliver { at },
        "requeue" => Op::Requeue { at },
        _ => Op::Ack { at },
    })
}

/// The queue that these operations make.
fn queue_of(alloc: Global, text: &str) -> Result<Queue, Fail> {
    let mut queue = Queue::new(alloc);
    for line in text.lines() {
        queue.apply(&op_of(alloc, line)?)?;
    }
    Ok(queue)
}

fn item(alloc: Global, at: Position, body: &Body, state: CopyState) -> Result<String, Fail> {
    let body = from_utf8(body.bytes()).map_err(|_| "no text")?;
    Ok(format!(in alloc; "{}{body}{}", at.0, sign(state))?)
}

/// The next load goes over.
fn pass(alloc: Global, out: &mut SyncOut, taken: &mut SyncIn) -> Result<String, Fail> {
    match out.next() {
        Some(CopyLoad::Item(load)) => {
            let text = item(alloc, load.at, &load.body, load.state)?;
            match taken.item(load) {
                Ok(()) => Ok(text),
                Err((_, fault)) => Err(fault)?,
            }
        }
        Some(CopyLoad::Done) => Ok(String::from_str(alloc, "done")?),
        None => Ok(String::from_str(alloc, "none")?),
    }
}

/// What the mirror is, once it was given all.
fn all(alloc: Global, taken: &mut SyncIn, mirror: &mut Mirror) -> Result<String, Fail> {
    match taken.done(mirror) {
        Err(SyncFault::Refused(reason)) => Ok(format!(in alloc; "{}", reason.code())?),
        Err(SyncFault::OutOfMemory) => Err("no memory")?,
        Ok(()) => {
            let missing = mirror.missing().unwrap_or(99);
            let next = mirror.queue().next();
            let mut text = format!(in alloc; "{missing}, next {},", next.0)?;
            for at in 0..10u64 {
                if let Some(held) = mirror.queue().item_from(Position(at)) {
                    if held.at.0 == at {
                        let item = item(alloc, held.at, held.body, held.state)?;
                        write!(text, " {item}")?;
                    }
                }
            }
            Ok(text)
        }
    }
}

#[test]
fn a_copy_takes_the_place_of_what_a_mirror_held(rt: HostRuntime) -> Result<(), Fail> {
    let alloc = rt.alloc();
    let spec = CreditSpec::new(8, 4).ok_or("no specification")?;
    let queue = queue_of(alloc, BEFORE)?;
    let mut out = SyncOut::begin(alloc, &queue, MemberId(2), spec)?;
    assert_eq!(rt; out.target(), MemberId(2));
    assert!(rt; !out.credit().blocked());
    let mut taken = SyncIn::begin(alloc, spec);
    let mut mirror = Mirror::joining(alloc);
    mirror.apply_op(&op_of(alloc, "publish 9 z")?)?;
    for line in TAKEN.lines() {
        let (done, wanted) = line.split_once(" =").ok_or("nothing wanted")?;
        let told = match done {
            "next" => pass(alloc, &mut out, &mut taken)?,
            "all" => all(alloc, &mut taken, &mut mirror)?,
            "mark" => {
                taken.saw_mark();
                String::new(alloc)
            }
            _ => {
                taken.since_mark(&op_of(alloc, done)?)?;
                String::new(alloc)
            }
        };
        assert_eq!(rt; told.as_str(), wanted.trim(), "at {line}");
    }
    Ok(())
}
