//! Clocks and recorders over stamps, and logs that are merged: tables of what is met or entered, with what is wanted then.
ghost use Rattle.std.specs.Prelude.{◌≡◌, IfOk};

use crate::*;
use ring_names::{Name, OutOfMemory, Stamp};
use ring_rules::Event;
use std::alloc::Global;
use std::test::Fail;

/// The time of the next tick, if there is one.
fn next(clock: &mut Clock) -> Option<u32> {
    if clock.spent() {
        return None;
    }
    Some(clock.tick())
}

#[test]
fn ticks_above_what_it_met(rt: HostRuntime) {
    let mut clock = Clock::new();
    let first = next(&mut clock);
    assert_eq!(rt; (first, next(&mut clock)), (Some(1), Some(2)));
    clock.begin(3);
    // The round and the time of a stamp, and the next tick.
    for (round, time, wanted) in [
        (0, 9, Some(1)),
        (3, 0, Some(2)),
        (3, 5, Some(6)),
        (2, 9, Some(7)),
        (4, 4_294_967_295, Some(8)),
        (3, 8, Some(9)),
        (3, 4_294_967_292, Some(4_294_967_293)),
        (3, 1, Some(4_294_967_294)),
        (3, 1, None),
        (3, 4_294_967_295, None),
    ] {
        clock.meet(Stamp {
            round,
            time,
            party: 2,
        });
        assert_eq!(rt; next(&mut clock), wanted, "at {round} {time}");
    }
    clock.begin(4);
    assert_eq!(rt; next(&mut clock), Some(1));
}

/// Something more happens at a time, if that is later than the last; an event tells by its number when and to whom.
fn enter(log: &mut LocalLog, by: Name, time: u32) -> Result<(), OutOfMemory>
    ensures { (log.new).party ≡ (log.old).party }
{
    if log.spare() == 0 && log.reserve(1).is_err() {
        log.reserve(1)?;
    }
    if log.last_time() < time {
        let view = log.party().saturating_mul(100).saturating_add(time);
        log.push(time, Event::Refresh { by, view });
    }
    Ok(())
}

/// The log of a party to which something happened at these times.
fn log_of(alloc: Global, party: u32, by: Name, times: &[u32]) -> Result<LocalLog, OutOfMemory>
    ensures { IfOk result (λ log. log.party ≡ party) }
{
    let mut log = LocalLog::new(alloc, party);
    for time in times {
        enter(&mut log, by, *time)?;
    }
    Ok(log)
}

/// The numbers of events.
fn numbers(alloc: Global, events: &[Event]) -> Result<Vec<u32>, Fail> {
    let mut numbers = Vec::new(alloc);
    for event in events {
        if let Event::Refresh { by: _, view } = event {
            numbers.push(*view)?;
        }
    }
    Ok(numbers)
}

#[test]
fn merges_by_time_and_party(rt: HostRuntime) -> Result<(), Fail> {
    let by = Name::read(b"a")?;
    let none: &[u32] = &[];
    // The times of parties 2, 0 and 1, and what is merged.
    for (two, zero, one, wanted) in [
        (none, none, none, none),
        (&[1, 4], none, none, &[201, 204]),
        (&[1, 4], &[1, 4], &[1, 4], &[1, 101, 201, 4, 104, 204]),
        (
            &[2, 3, 9],
            none,
            &[1, 3, 4],
            &[101, 202, 103, 203, 104, 209],
        ),
        (&[5], &[7, 6, 8], &[5, 5], &[105, 205, 7, 8]),
    ] {
        let logs = [
            log_of(rt.alloc(), 2, by, two)?,
            log_of(rt.alloc(), 0, by, zero)?,
            log_of(rt.alloc(), 1, by, one)?,
        ];
        let events = merge(rt.alloc(), logs.as_slice())?;
        let numbers = numbers(rt.alloc(), events.as_slice())?;
        assert_eq!(rt; numbers.as_slice(), wanted);
    }
    Ok(())
}

#[test]
fn keeps_its_room(rt: HostRuntime) -> Result<(), Fail> {
    let by = Name::read(b"a")?;
    let mut log = log_of(rt.alloc(), 7, by, &[3, 5])?;
    log.reserve(4)?;
    let room = log.spare();
    assert!(rt; room >= 4 && log.last_time() == 5 && log.entries().len() == 2);
    log.clear();
    assert!(rt; log.spare() == room + 2 && log.last_time() == 0 && log.entries().is_empty());
    assert!(rt; log.party() == 7);
    Ok(())
}

/// The stamp of what the party does next, if it does something.
fn put(recorder: &mut Recorder, by: Name) -> Option<Stamp> {
    if recorder.spent() || recorder.spare() == 0 {
        return None;
    }
    let stamp = recorder.next_stamp();
    recorder.note(Event::Put { by });
    Some(stamp)
}

#[test]
fn records_what_a_party_does(rt: HostRuntime) -> Result<(), Fail> {
    let by = Name::read(b"a")?;
    let mut recorder = Recorder::new(rt.alloc(), 3);
    // Whether it is alone, what it meets, whether that comes too late, and the time of what it does then.
    for (alone, round, time, late, wanted) in [
        (false, 2, 5, false, Some(6)),
        (false, 1, 5, false, Some(1)),
        (true, 2, 5, false, Some(0)),
        (false, 2, 4_294_967_294, true, None),
        (true, 2, 4_294_967_294, false, Some(0)),
    ] {
        recorder.begin(2, alone, 1)?;
        let stamp = Stamp {
            round,
            time,
            party: 1,
        };
        assert_eq!(rt; recorder.is_late(stamp), late);
        recorder.meet(stamp);
        let given = match put(&mut recorder, by) {
            Some(
                Stamp {
                    round: 2,
                    time,
                    party: 3,
                },
            ) => Some(time),
            _ => None,
        };
        assert_eq!(rt; given, wanted, "at {round} {time}");
        assert_eq!(rt;
            recorder.log().entries().len(),
            if wanted.is_some() { 1 } else { 0 }
        );
    }
    recorder.begin(3, false, 0)?;
    recorder.make_room()?;
    assert_eq!(rt; recorder.stamp().time, 0);
    if recorder.spare() > 0 && !recorder.spent() {
        recorder.note_some(None);
    }
    assert!(rt; recorder.log().entries().is_empty());
    Ok(())
}
