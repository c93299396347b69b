//! Clusters of which some members stop, and to which others come, also where an allocation fails: tables of what is
//! asked of them, with what is wanted to be seen then. What changes a ring is tried once more where it wants memory, but
//! for a plain round.

use ring_cluster::Cluster;
use ring_io::{Gate, MeetGate};
use ring_names::{Body, MemberId, Name, OutOfMemory};
use ring_rules::{Event, Refused};
use ring_script::{Command, ScriptFault, Steps, read_steps};
use ring_world::are_opening_names;
use std::alloc::Global;
use std::process::Abort;
use std::sync::atomic::{AtomicU64, Ordering};
use std::test::Fail;
use std::thread::Threads;

/// What is asked of a ring, or looked for in it.
#[derive(Clone, Copy, Debug)]
enum Line {
    /// The member is asked to multicast this.
    Ask(&'static str, &'static str),
    /// The events of a step file happen where the ring lets them, so many times over.
    Steps(&'static str, u32),
    /// A round of so many turns. The test ends where it wants memory.
    Go(u32),
    /// A round of so many turns, and another where it wants memory.
    GoAgain(u32),
    Settle,
    /// The member of the first id, where there is one, has heard these bodies of that of the second.
    Heard(u32, u32, &'static str),
    /// So many messages of the member of that id have come round, where there is one.
    Confirmed(u32, Option<u64>),
    /// The mirror of the member of that id, where there is one, is known to lack so many messages.
    Lacks(u32, Option<u64>),
    /// The version of the newest view.
    View(u32),
    /// So many events have happened.
    Events(usize),
    /// So many rounds were given a number.
    Rounds(u32),
    /// The member of that id, one of the first three, has passed the gate as often before its turns as after them,
    /// at least so often and at most so often.
    Passes(u32, u64, u64),
}

/// A gate that counts how often each of the first three members passes it before its turns, and after them. Each
/// count has 16 bits.
#[derive(Drop)]
struct CountingGate {
    before: AtomicU64,
    after: AtomicU64,
}

impl CountingGate {
    fn new() -> CountingGate {
        CountingGate {
            before: AtomicU64::new(0),
            after: AtomicU64::new(0),
        }
    }

    /// Whether a member has passed it as often before its turns as after them, within these bounds.
    fn is_passed_by(&self, who: u32, least: u64, most: u64) -> bool {
        let before = count_of(self.before.load(Ordering::SeqCst), who);
        let after = count_of(self.after.load(Ordering::SeqCst), who);
        before == after && least <= before && before <= most
    }
}

impl Gate for CountingGate {
    fn pass(&self, who: MemberId, kind: u8) {
        let one = one_of(who.0);
        match kind {
            1 => self.before.fetch_add(one, Ordering::SeqCst),
            _ => self.after.fetch_add(one, Ordering::SeqCst),
        };
    }
}

/// What one pass of a member adds to the counts.
fn one_of(who: u32) -> u64 {
    match who {
        1 => 1,
        2 => 0x1_0000,
        3 => 0x1_0000_0000,
        _ => 0x1_0000_0000_0000,
    }
}

/// The count of a member.
fn count_of(counts: u64, who: u32) -> u64 {
    let above = match who {
        1 => counts,
        2 => counts >> 16,
        3 => counts >> 32,
        _ => counts >> 48,
    };
    above & 0xffff
}

/// The steps of a text.
fn steps(alloc: Global, text: &str) -> Result<Steps, ScriptFault> {
    match read_steps(alloc, text.as_bytes()) {
        Err(ScriptFault::OutOfMemory) => read_steps(alloc, text.as_bytes()),
        answer => answer,
    }
}

/// How many events have happened, counted again where memory was wanted.
fn happened(cluster: &Cluster) -> Result<usize, OutOfMemory> {
    match cluster.journal() {
        Ok(journal) => Ok(journal.len()),
        Err(OutOfMemory) => Ok(cluster.journal()?.len()),
    }
}

/// An event happens where the ring lets it.
fn step(cluster: &mut Cluster, event: &Event) -> Result<(), OutOfMemory> {
    match cluster.step(event) {
        Err(Refused::OutOfMemory) => Err(OutOfMemory),
        _ => Ok(()),
    }
}

/// The same, again where memory was wanted and it hasn't happened.
fn step_again(cluster: &mut Cluster, event: &Event) -> Result<(), OutOfMemory> {
    let before = happened(cluster)?;
    match step(cluster, event) {
        Err(OutOfMemory) if happened(cluster)? == before => step(cluster, event),
        _ => Ok(()),
    }
}

/// Each event of a step file happens where the ring lets it, so many times over.
fn attempt(alloc: Global, cluster: &mut Cluster, text: &str, times: u32) -> Result<(), Fail> {
    let steps = steps(alloc, text)?;
    for _time in 0..times {
        for (_number, event) in steps.lines.as_slice() {
            step_again(cluster, event)?;
        }
    }
    Ok(())
}

/// The ring that opens with the members and the credit of a step file.
fn ring(rt: &(impl Abort + AllocGlobal), text: &str) -> Result<Cluster, Fail> {
    let steps = steps(rt.alloc(), text)?;
    let names = steps.members.as_slice();
    assert!(rt; are_opening_names(names));
    let cluster = match Cluster::opening(rt.alloc(), names, steps.credit) {
        Ok(cluster) => cluster,
        Err(_) => Cluster::opening(rt.alloc(), names, steps.credit)?,
    };
    cluster.is_going();
    Ok(cluster)
}

/// The member is asked to multicast this, again with the command that comes back where memory was wanted.
fn ask(
    rt: &(impl Abort + AllocGlobal),
    cluster: &mut Cluster,
    by: &str,
    text: &str,
) -> Result<(), Fail> {
    let by = Name::read(by.as_bytes())?;
    let body = Body::read(rt.alloc(), text.as_bytes())?;
    let Err((command, _)) = cluster.command(Command::Cast { by, body }) else {
        return Ok(());
    };
    match cluster.command(command) {
        Ok(()) => Ok(()),
        Err((_, fault)) => Err(fault)?,
    }
}

/// One round.
fn go<R: Threads + Sync + Abort>(
    rt: &R,
    cluster: &mut Cluster,
    turns: u32,
    gate: &CountingGate,
) -> Result<(), OutOfMemory> {
    assert!(rt; (1..=1000).contains(&turns));
    cluster.go(rt, turns, gate)
}

fn go_again<R: Threads + Sync + Abort>(
    rt: &R,
    cluster: &mut Cluster,
    turns: u32,
    gate: &CountingGate,
) -> Result<(), OutOfMemory> {
    match go(rt, cluster, turns, gate) {
        Ok(()) => Ok(()),
        Err(OutOfMemory) => go(rt, cluster, turns, gate),
    }
}

fn settle<R: Threads + Sync>(
    rt: &R,
    cluster: &mut Cluster,
    gate: &CountingGate,
) -> Result<(), OutOfMemory> {
    match cluster.settle(rt, gate) {
        Ok(()) => Ok(()),
        Err(OutOfMemory) => cluster.settle(rt, gate),
    }
}

/// Whether the member of an id has heard these bodies of another.
fn has_heard(cluster: &Cluster, by: u32, of: u32, bodies: &str) -> Result<bool, OutOfMemory> {
    let Some(member) = cluster.member(MemberId(by)) else {
        return Ok(false);
    };
    if of == 0 {
        return Ok(false);
    }
    let base = member.base(MemberId(of)) as usize;
    let got = member.got(MemberId(of)) as usize;
    let all = cluster.published()?;
    match all.get(of as usize - 1) {
        Some(published) => Ok(are_bodies(published, base, got, bodies)),
        None => Ok(false),
    }
}

/// Whether the casts between two numbers have these bodies.
fn are_bodies(published: &[Option<&Body>], base: usize, got: usize, bodies: &str) -> bool {
    let mut wanted = bodies.split_whitespace();
    for message in published.iter().take(got).skip(base) {
        let Some(body) = message else {
            continue;
        };
        match wanted.next() {
            Some(text) if text.as_bytes() == body.bytes() => {}
            _ => return false,
        }
    }
    wanted.next().is_none()
}

/// How many messages of the member of an id have come round.
fn confirmed(cluster: &Cluster, by: u32) -> Option<u64> {
    Some(cluster.member(MemberId(by))?.confirmed())
}

/// How many messages the mirror of the member of an id lacks, where that is known.
fn lacked(cluster: &Cluster, by: u32) -> Option<u64> {
    cluster.mirror(MemberId(by))?.missing()
}

/// Whether the ring is seen so, or does so.
fn is_so<R: Threads + Sync + Abort + AllocGlobal>(
    rt: &R,
    cluster: &mut Cluster,
    gate: &CountingGate,
    line: Line,
) -> Result<bool, Fail> {
    match line {
        Line::Ask(by, text) => ask(rt, cluster, by, text)?,
        Line::Steps(text, times) => attempt(rt.alloc(), cluster, text, times)?,
        Line::Go(turns) => go(rt, cluster, turns, gate)?,
        Line::GoAgain(turns) => go_again(rt, cluster, turns, gate)?,
        Line::Settle => settle(rt, cluster, gate)?,
        Line::Heard(by, of, bodies) => return Ok(has_heard(cluster, by, of, bodies)?),
        Line::Confirmed(by, count) => return Ok(confirmed(cluster, by) == count),
        Line::Lacks(by, count) => return Ok(lacked(cluster, by) == count),
        Line::View(version) => return Ok(cluster.view().version == version),
        Line::Events(count) => return Ok(happened(cluster)? == count),
        Line::Rounds(count) => return Ok(cluster.rounds() == count),
        Line::Passes(who, least, most) => return Ok(gate.is_passed_by(who, least, most)),
    }
    Ok(true)
}

/// The ring that opens so does each line, or is seen so.
fn play<R: Threads + Sync + Abort + AllocGlobal>(
    rt: &R,
    text: &str,
    lines: &[Line],
) -> Result<(), Fail> {
    let mut cluster = ring(rt, text)?;
    let gate = CountingGate::new();
    for line in lines {
        assert!(rt; is_so(rt, &mut cluster, &gate, *line)?, "{line:?}");
    }
    Ok(())
}

const THREE_SETTLE: [Line; 18] = [
    Line::Ask("a", "a1"),
    Line::Ask("b", "b1"),
    Line::Ask("a", "a2"),
    Line::Settle,
    Line::Heard(1, 1, "a1 a2"),
    Line::Heard(1, 2, "b1"),
    Line::Heard(1, 3, ""),
    Line::Heard(2, 1, "a1 a2"),
    Line::Heard(2, 2, "b1"),
    Line::Heard(2, 3, ""),
    Line::Heard(3, 1, "a1 a2"),
    Line::Heard(3, 2, "b1"),
    Line::Heard(3, 3, ""),
    Line::Confirmed(1, Some(2)),
    Line::Confirmed(2, Some(1)),
    Line::View(1),
    Line::Confirmed(0, None),
    Line::Confirmed(4, None),
];

#[test]
fn three_members_settle(rt: HostRuntime) -> Result<(), Fail> {
    play(&rt, "members a b c", &THREE_SETTLE)
}

/// In the round `a` refuses its task, `b` does its own, and `c` has `a` marked dead. `b` leads then, so its start comes
/// round too.
const AGENDA_OF_WHO_STOPPED: [Line; 20] = [
    Line::Ask("a", "a1"),
    Line::Ask("b", "b1"),
    Line::Steps("members a\nstop a", 1),
    Line::Go(1),
    Line::Events(4),
    Line::Rounds(2),
    Line::View(2),
    Line::Heard(2, 2, "b1"),
    Line::Ask("c", "c1"),
    Line::Settle,
    Line::View(3),
    Line::Heard(1, 1, ""),
    Line::Heard(2, 1, ""),
    Line::Heard(2, 2, "b1"),
    Line::Heard(2, 3, "c1"),
    Line::Confirmed(2, Some(2)),
    Line::Heard(3, 1, ""),
    Line::Heard(3, 2, "b1"),
    Line::Heard(3, 3, "c1"),
    Line::Confirmed(3, Some(1)),
];

#[test]
fn who_has_stopped_refuses_its_agenda(rt: HostRuntime) -> Result<(), Fail> {
    play(&rt, "members a b c", &AGENDA_OF_WHO_STOPPED)
}

/// The second of three members stops between a round of one turn and one of three.
const AROUND_TURNS: [Line; 10] = [
    Line::Ask("a", "a1"),
    Line::Ask("b", "b1"),
    Line::Go(1),
    Line::Passes(1, 1, 1),
    Line::Passes(2, 1, 1),
    Line::Passes(3, 1, 1),
    Line::Steps("members b\nstop b", 1),
    Line::Go(3),
    Line::Passes(2, 1, 1),
    Line::Passes(1, 2, 4),
];

/// The same, where a round that wants memory is followed by another.
const AROUND_FAILED_TURNS: [Line; 9] = [
    Line::Ask("a", "a1"),
    Line::Ask("b", "b1"),
    Line::GoAgain(1),
    Line::Passes(1, 1, 2),
    Line::Passes(2, 1, 2),
    Line::Passes(3, 1, 2),
    Line::Steps("members b\nstop b", 1),
    Line::GoAgain(3),
    Line::Passes(1, 2, 8),
];

/// The gate is passed before and after each turn, also of one that wants memory, and not by who has stopped and has
/// nothing to refuse.
#[test]
fn each_turn_is_between_two_passes(rt: HostRuntime) -> Result<(), Fail> {
    play(&rt, "members a b c", &AROUND_TURNS)?;
    play(&rt, "members a b c", &AROUND_FAILED_TURNS)
}

/// How often a member looks for another at most, before its first turn.
const LOOKS: u64 = 200_000_000;

/// Each of the two waits before its first turn until the other's has begun.
#[test]
fn two_members_take_turns_at_the_same_time(rt: HostRuntime) -> Result<(), Fail> {
    let mut cluster = ring(&rt, "members a b")?;
    let gate = MeetGate::new(MemberId(1), MemberId(2), LOOKS);
    cluster.go(&rt, 10, &gate)?;
    assert!(&rt; gate.met());
    Ok(())
}

/// It leads then, and its start comes round to it.
const LEFT_ALONE: [Line; 8] = [
    Line::Steps("members a\nstop a", 1),
    Line::Ask("b", "b1"),
    Line::Settle,
    Line::Heard(2, 2, "b1"),
    Line::Confirmed(2, Some(2)),
    Line::Steps("members b\nstop b", 1),
    Line::Settle,
    Line::View(3),
];

#[test]
fn who_is_left_alone_hears_itself(rt: HostRuntime) -> Result<(), Fail> {
    play(&rt, "members a b", &LEFT_ALONE)
}

const SETTLED_AGAIN: [Line; 15] = [
    Line::Ask("a", "a1"),
    Line::Ask("b", "b1"),
    Line::Ask("c", "c1"),
    Line::Ask("a", "a2"),
    Line::GoAgain(3),
    Line::Steps("members b\nstop b", 1),
    Line::Ask("c", "c2"),
    Line::Settle,
    Line::Heard(1, 1, "a1 a2"),
    Line::Heard(1, 3, "c1 c2"),
    Line::Confirmed(1, Some(2)),
    Line::Heard(3, 1, "a1 a2"),
    Line::Heard(3, 3, "c1 c2"),
    Line::Confirmed(3, Some(2)),
    Line::View(3),
];

/// Rounds and settlings go on from what has happened, where an allocation failed in them.
#[test]
fn who_is_left_settles_again(rt: HostRuntime) -> Result<(), Fail> {
    play(&rt, "members a b c\ncredit 2 1", &SETTLED_AGAIN)
}

/// `a` tells the newcomer that there are no messages, so that one is registered as synchronised.
const NEWCOMER_SETTLES: [Line; 18] = [
    Line::Ask("a", "a1"),
    Line::Settle,
    Line::Steps("members a\nadmit a n", 1),
    Line::View(2),
    Line::Confirmed(3, Some(0)),
    Line::Confirmed(4, None),
    Line::Ask("b", "b1"),
    Line::Ask("a", "a2"),
    Line::Settle,
    Line::View(3),
    Line::Heard(1, 2, "b1"),
    Line::Heard(2, 1, "a1 a2"),
    Line::Heard(3, 1, "a2"),
    Line::Heard(3, 2, "b1"),
    Line::Confirmed(1, Some(3)),
    Line::Confirmed(2, Some(1)),
    Line::Lacks(2, Some(0)),
    Line::Lacks(3, Some(0)),
];

/// Who is admitted takes its turns in rounds and in the drain as all others do.
#[test]
fn a_newcomer_settles_with_the_others(rt: HostRuntime) -> Result<(), Fail> {
    play(&rt, "members a b", &NEWCOMER_SETTLES)
}

/// Two neighbours of five stop, the second once more.
const TWO_STOP: &str = "
    members a b c d e
    cast a one
    cast a two
    put a
    put a
    cast b one
    cast b two
    put b
    put b
    cast c one
    cast c two
    put c
    put c
    cast d one
    cast d two
    put d
    put d
    cast e one
    cast e two
    put e
    put e
    take c
    take d
    stop b
    stop c
    stop c
    ";

/// What repairs their ring, over and over.
const REPAIRS: &str = "
    members a d e
    refresh a 2
    refresh a 3
    pick a
    take a
    takeend a
    gain a
    put a
    mark a b
    mark a c
    refresh d 2
    refresh d 3
    pick d
    take d
    takeend d
    gain d
    put d
    mark d b
    mark d c
    refresh e 2
    refresh e 3
    pick e
    take e
    takeend e
    gain e
    put e
    mark e b
    mark e c
    ";

/// What `b` put is gone with `c`, and what `c` put goes on with `d`.
const TWO_STOPPED: [Line; 25] = [
    Line::Steps(TWO_STOP, 1),
    Line::Steps(REPAIRS, 60),
    Line::View(3),
    Line::Heard(1, 1, "one two"),
    Line::Heard(1, 2, ""),
    Line::Heard(1, 3, "one two"),
    Line::Heard(1, 4, "one two"),
    Line::Heard(1, 5, "one two"),
    Line::Confirmed(1, Some(2)),
    Line::Confirmed(2, Some(0)),
    Line::Heard(3, 1, ""),
    Line::Heard(3, 2, "one two"),
    Line::Confirmed(3, Some(0)),
    Line::Heard(4, 1, "one two"),
    Line::Heard(4, 2, ""),
    Line::Heard(4, 3, "one two"),
    Line::Heard(4, 4, "one two"),
    Line::Heard(4, 5, "one two"),
    Line::Confirmed(4, Some(2)),
    Line::Heard(5, 1, "one two"),
    Line::Heard(5, 2, ""),
    Line::Heard(5, 3, "one two"),
    Line::Heard(5, 4, "one two"),
    Line::Heard(5, 5, "one two"),
    Line::Confirmed(5, Some(2)),
];

/// The first failing allocation is met by trying again, wherever it fails.
#[test]
fn two_neighbours_of_five_stop(rt: HostRuntime) -> Result<(), Fail> {
    play(&rt, "members a b c d e\ncredit 2 1", &TWO_STOPPED)
}
