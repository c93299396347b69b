//! Elections in the group `a b c`, row by row: changes of its view and, behind `=`, who may be elected, the master once
//! one is installed, and its term; 0 is nobody. `mark 1`, `erase 1` and `sync 1` tell the id; `admit 1` admits `d`, which
//! isn't synchronised.
use crate::*;
use group_view::{View, ViewFault, are_opening_names};
use queue_core::{Op, Queue};
use ring_names::{Body, MemberId, Name, Position};
use std::alloc::Global;
use std::test::Fail;

const ROWS: &str = "\
= 1 1 1
mark 1 = 2 1 1
mark 1, erase 1 = 2 2 2
mark 2, erase 2 = 1 1 1
mark 2, mark 1, erase 1 = 3 3 2
mark 3, erase 3, mark 1, erase 1 = 2 2 2
admit 1, mark 1, erase 1, mark 3 = 2 2 2
admit 1, mark 1, mark 2, mark 3 = 0 1 1
admit 1, mark 1, mark 2, mark 3, erase 1 = 0 0 1
admit 1, mark 1, mark 2, mark 3, erase 1, sync 4 = 4 4 2
admit 1, sync 4, mark 1, mark 2, mark 3 = 4 1 1
admit 1, sync 4, mark 1, erase 1 = 2 2 2
admit 1, sync 4, mark 4, mark 1, mark 2, mark 3, erase 1 = 0 0 1";

fn name(text: &str) -> Result<Name, Fail> {
    Ok(Name::read(text.as_bytes())?)
}

/// The opening view of three members.
fn opened(alloc: Global) -> Result<View, Fail> {
    let mut names = Vec::new(alloc);
    for text in ["a", "b", "c"] {
        names.push(name(text)?)?;
    }
    if !are_opening_names(&names) {
        return Err(Fail::new("no opening"));
    }
    Ok(View::opening(alloc, &names)?)
}

/// A change is made, and again where an allocation failed.
fn change(view: &mut View, asked: &str) -> Result<(), Fail> {
    let (verb, id) = asked.split_once(' ').unwrap_or((asked, ""));
    let id = MemberId(id.parse::<u32>().unwrap_or(0));
    let refused = match verb {
        "mark" => view.mark_dead(id).is_err(),
        "erase" => view.erase(id).is_err(),
        "sync" => view.mark_synced(id).is_err(),
        _ => match view.admit(id, name("d")?) {
            Err(ViewFault::OutOfMemory) => view.admit(id, name("d")?).is_err(),
            answer => answer.is_err(),
        },
    };
    if refused {
        return Err(Fail::new("a change is refused"));
    }
    Ok(())
}

fn number(id: Option<MemberId>) -> u32 {
    match id {
        Some(id) => id.0,
        None => 0,
    }
}

#[test]
fn the_oldest_that_may_leads(rt: HostRuntime) -> Result<(), Fail> {
    for row in ROWS.lines() {
        let (changes, wanted) = row.split_once("= ").unwrap_or((row, ""));
        let mut view = opened(rt.alloc())?;
        for asked in changes.split(',') {
            if !asked.trim().is_empty() {
                change(&mut view, asked.trim())?;
            }
        }
        let elected = number(elect(&view));
        let master = number(install(&mut view));
        let found = format!(in rt.alloc(); "{elected} {master} {}", view.term)?;
        assert_eq!(rt; found.as_str(), wanted, "at {changes}");
    }
    Ok(())
}

/// A queue of two messages, of which the first is handed out, behind one that has left.
fn queue_of_two(alloc: Global) -> Result<Queue, Fail> {
    let mut queue = Queue::new(alloc);
    for at in [1, 2, 3] {
        queue.apply(&Op::Publish {
            at: Position(at),
            body: Body::read(alloc, b"x")?,
        })?;
    }
    queue.apply(&Op::Drop { at: Position(1) })?;
    queue.apply(&Op::Deliver { at: Position(2) })?;
    Ok(queue)
}

#[test]
fn starts_with_the_depth(rt: HostRuntime) -> Result<(), Fail> {
    let start = start_op(&queue_of_two(rt.alloc())?);
    assert!(rt; matches!(start, Op::Start { depth: 2 }));
    Ok(())
}
