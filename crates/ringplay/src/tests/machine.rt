//! The plain machine of the ring, played from texts, in which each line is an event as step files have it, or a
//! question: `view`, `quiet`, `member a`, `state a`, `counts a`, `walk a`, `heard BY OF`, `items a`, `refusals`. Behind
//! its arrow stands the answer that the rules of the ring want. An event that has no arrow happens. Of the items that a
//! mirror holds each is a position and a body, with `+` where it is ready again, and with `*` where it is handed out.
mod answers;
mod queue;
mod rows;

use answers::answer;
use queue::{NOBODY_LEADS, PROMOTED, REGISTERED, SERVED};
use ring_script::read_steps;
use ring_world::{World, are_opening_names};
use rows::{
    ADMITTER_STOPS, NEIGHBOUR_COMES_BACK, NEWCOMER, PUBLISHER_STOPS, STOPS_BEFORE_ITS_PUT, TOLD,
    TWO_STOP,
};
use std::process::Abort;
use std::test::Fail;

/// Who stops, is marked dead, and is outlived by what it sent.
const DEATH: &str = "
    cast a x
    put a
    take b
    stop a
    heard b a -> x
    heard b b ->
    counts a -> casts 1 confirmed 0 publishes 0 confirmed 0
    state a -> Stopped
    state b -> Up { missing: Some(0) }
    view -> 1
    takeend b
    mark b a
    view -> 2
    ";

/// The ring is not quiet while who stopped is live, while a view is old and while a packet stands at a door, and
/// then as who died is not erased.
const UNQUIET: &str = "
    quiet -> true
    stop b
    quiet -> false
    takeend c
    mark a b
    quiet -> false
    refresh c 2
    quiet -> false
    pick c
    take c
    quiet -> false
    ";

/// Nobody walks in a ring in which all have stopped.
const ALL_STOPPED: &str = "
    cast a x
    put a
    stop a
    quiet -> false
    stop b
    quiet -> true
    walk a -> []
    ";

/// A ring of one hears itself.
const ALONE: &str = "
    cast a hi
    counts a -> casts 1 confirmed 0 publishes 0 confirmed 0
    put a
    take a
    counts a -> casts 1 confirmed 1 publishes 0 confirmed 0
    heard a a -> hi
    ";

/// What is refused changes nothing.
const REFUSED: &str = "
    cast z x -> refused 6 UnknownMember
    put z -> refused 6 UnknownMember
    gain z -> refused 6 UnknownMember
    put a -> refused 16 NothingNew
    take b -> refused 17 NothingToTake
    gain a -> refused 37 NoGrant
    counts a -> casts 0 confirmed 0 publishes 0 confirmed 0
    heard b a ->
    ";

/// Members have ids and states.
const MEMBERS: &str = "
    member a -> Some(MemberId(1))
    member b -> Some(MemberId(2))
    member c -> None
    state b -> Up { missing: Some(0) }
    ";

/// A ring is quiet again when all has come round.
const ROUND: &str = "
    quiet -> true
    cast a x
    quiet -> false
    put a
    quiet -> false
    take b
    quiet -> false
    put b
    quiet -> false
    take a
    quiet -> false
    put a
    quiet -> false
    take b
    quiet -> false
    put b
    quiet -> false
    take a
    quiet -> true
    ";

/// The walk of `a`, worked out by hand from what the walk is, while `a` stops and its ring is mended.
const WALK: &str = "
    walk a -> [0, 0, 0, 0, 0, 0, 0]
    cast a x
    walk a -> [1, 0, 0, 0, 0, 0, 0]
    put a
    walk a -> [1, 1, 0, 0, 0, 0, 0, 0, 0]
    take b
    walk a -> [1, 1, 0, 0, 0, 0, 0]
    stop a
    walk a -> [1, 0, 0, 0, 0]
    takeend b
    walk a -> [1, 0, 0, 0, 0]
    mark b a
    walk a -> [1, 0, 0, 0, 0]
    put b
    walk a -> [1, 1, 0, 0, 0, 0, 0]
    take c -> refused 14 ViewTooOld { need: 2, have: 1 }
    walk a -> [1, 1, 0, 0, 0, 0, 0]
    refresh c 2
    walk a -> [1, 1, 0, 0, 0, 0, 0, 0, 0]
    take c
    walk a -> [1, 1, 0, 0, 0, 0, 0]
    pick b
    walk a -> [1, 1, 0, 0, 0, 0, 0]
    take b
    walk a -> [1, 1, 0, 0, 0]
    put c
    walk a -> [1, 1, 1, 0, 0, 0, 0]
    take b
    walk a -> [1, 1, 1, 0, 0]
    put b
    walk a -> [1, 1, 1, 1, 1, 0, 0]
    take c
    walk a -> [1, 1, 1, 1, 0]
    put c
    walk a -> [1, 1, 1, 1, 1, 1, 0]
    take b
    walk a -> [1, 1, 1, 1, 1]
    ";

/// The ring that opens with the members and the credit of a step file.
fn ring(rt: &(impl Abort + AllocGlobal), text: &str) -> Result<World, Fail> {
    let steps = read_steps(rt.alloc(), text.as_bytes())?;
    let names = steps.members.as_slice();
    assert!(rt; are_opening_names(names));
    Ok(World::opening(rt.alloc(), names, steps.credit)?)
}

/// The ring answers a line with what stands behind its arrow.
fn expect(rt: &(impl Abort + AllocGlobal), world: &mut World, line: &str) -> Result<(), Fail> {
    let (said, wanted) = line.split_once("->").unwrap_or((line, ""));
    let told = answer(rt, world, said.trim())?;
    assert_eq!(rt; told.as_str().trim(), wanted.trim(), "at {line}");
    Ok(())
}

/// The ring that opens so answers each line of a text as the text wants.
fn play(rt: &(impl Abort + AllocGlobal), opening: &str, text: &str) -> Result<(), Fail> {
    let mut world = ring(rt, opening)?;
    for line in text.trim().lines() {
        expect(rt, &mut world, line.trim())?;
    }
    Ok(())
}

#[test]
fn the_machine_answers_where_nobody_stops(rt: HostRuntime) -> Result<(), Fail> {
    play(&rt, "members a\ncredit 8 4", ALONE)?;
    for text in [REFUSED, MEMBERS, ROUND] {
        play(&rt, "members a b\ncredit 8 4", text)?;
    }
    Ok(())
}

#[test]
fn the_machine_answers_where_members_stop(rt: HostRuntime) -> Result<(), Fail> {
    for text in [DEATH, ALL_STOPPED] {
        play(&rt, "members a b\ncredit 8 4", text)?;
    }
    for text in [UNQUIET, WALK] {
        play(&rt, "members a b c\ncredit 8 4", text)?;
    }
    Ok(())
}

#[test]
fn the_machine_erases_the_dead(rt: HostRuntime) -> Result<(), Fail> {
    for text in [PUBLISHER_STOPS, STOPS_BEFORE_ITS_PUT] {
        play(&rt, "members a b c\ncredit 8 4", text)?;
    }
    play(&rt, "members a b c d\ncredit 8 4", TWO_STOP)
}

#[test]
fn the_machine_admits_newcomers(rt: HostRuntime) -> Result<(), Fail> {
    for text in [NEWCOMER, ADMITTER_STOPS, NEIGHBOUR_COMES_BACK, TOLD] {
        play(&rt, "members a b\ncredit 8 4", text)?;
    }
    Ok(())
}

#[test]
fn the_machine_serves_and_promotes(rt: HostRuntime) -> Result<(), Fail> {
    play(&rt, "members a b\ncredit 8 4", SERVED)?;
    play(&rt, "members a b c\ncredit 8 4", PROMOTED)?;
    for text in [REGISTERED, NOBODY_LEADS] {
        play(&rt, "members a\ncredit 8 4", text)?;
    }
    Ok(())
}
