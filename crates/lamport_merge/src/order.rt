//! The merge of the logs of a round: the next entry of all, again and again.
ghost use Rattle.std.specs.Prelude.{◌≡◌, ℕ, ◌<◌, ◌&&◌, ◌||◌, nat_lt, nat_eq, List, ◌∷◌, [], length, drop, IfOk, IfSome, MatchOption};
ghost use Rattle.ring_rules.specs.declared.event.Event.{Event as AnEvent};
ghost use Rattle.lamport_merge.specs.Merge.{merged, events_of, AreLogs, PartiesDiffer};
ghost use Rattle.lamport_merge.specs.Next.{IsFirstAt, NothingIsLeft};
ghost use Rattle.lamport_merge.specs.Logs.{logs_of, left_of};

use crate::log::LocalLog;
use ring_names::OutOfMemory;
use ring_rules::Event;
use std::alloc::Global;

/// Whether an entry of this time and party stands before one of another time and party.
fn is_sooner(time: u32, party: u32, other_time: u32, other_party: u32) -> bool
    ensures { result ≡ (nat_lt time other_time || (nat_eq time other_time && nat_lt party other_party)) }
{
    time < other_time || (time == other_time && party < other_party)
}

/// The time of the next entry of a log, if it has one left.
fn next_time(log: &LocalLog, next: usize) -> Option<u32>
    ensures { MatchOption result (drop next (log.now).entries ≡ [])
        (λ t. (v : AnEvent) × (rest : List (ℕ × AnEvent)) × (drop next (log.now).entries ≡ (t, v) ∷ rest)) }
{
    match log.entries().get(next) {
        Some(entry) => Some(entry.0),
        None => None,
    }
}

/// Of logs that are left from these places on, the place of the one whose first entry comes next, with the time and
/// the party of that entry.
pub(crate) fn first(logs: &[LocalLog], nexts: &[usize]) -> Option<(usize, u32, u32)>
    requires same { length nexts.now ≡ length logs.now }
    requires parties { PartiesDiffer (left_of logs.now nexts.now) }
    ensures within { IfSome result (λ r. r.0 < length logs.now) }
    ensures first { MatchOption result (NothingIsLeft (left_of logs.now nexts.now))
        (λ r. (v : AnEvent) × IsFirstAt r.0 (record { time = r.1; party = r.2; event = v }) (left_of logs.now nexts.now)) }
{
    let Some((log, logs)) = logs.split_first() else {
        return None;
    };
    let Some((next, nexts)) = nexts.split_first() else {
        return None;
    };
    let later = first(logs, nexts);
    let Some(time) = next_time(log, *next) else {
        return match later {
            Some((place, time, party)) => Some((place + 1, time, party)),
            None => None,
        };
    };
    match later {
        None => Some((0, time, log.party())),
        Some((place, other, party)) => {
            if is_sooner(time, log.party(), other, party) {
                Some((0, time, log.party()))
            } else {
                Some((place + 1, other, party))
            }
        }
    }
}

/// The logs of different parties are those of a round, since the times of each rise. It only tells that.
pub(crate) fn tell(logs: &[LocalLog])
    requires { PartiesDiffer (logs_of logs.now) }
    ensures { AreLogs (logs_of logs.now) }
{
    let Some((log, logs)) = logs.split_first() else {
        return;
    };
    let _ = log.entries();
    tell(logs);
}

/// What happened in a round, by the logs of its parties: in the order of time, and of parties where two events are
/// of one time. It has no event that no log has, and each log's in their order: `merging_keeps_each_log`.
pub fn merge(alloc: Global, logs: &[LocalLog]) -> Result<Vec<Event>, OutOfMemory>
    requires { PartiesDiffer (logs_of logs.now) }
    ensures merged { IfOk result (λ v. v.items ≡ events_of (merged (logs_of logs.now))) }
    ensures logs { AreLogs (logs_of logs.now) }
{
    tell(logs);
    let mut nexts = vec![in alloc; 0usize; logs.len()]?;
    let mut events = Vec::new(alloc);
    'each: loop {
        let Some((place, _, _)) = first(logs, &nexts) else {
            return Ok(events);
        };
        let Some(entry) = logs[place].entries().get(nexts[place]) else {
            unreachable!()
        };
        let copy = entry.1.copy()?;
        events.push(copy)?;
        nexts[place] += 1;
    }
}
