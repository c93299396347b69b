//! The logs of a round as they are gathered, and their merge without memory.
ghost use Rattle.std.specs.Prelude.{◌≡◌, ◌+◌, ◌<◌, ◌≤◌, [], ◌∷◌, ◌++◌, length, IfOk};
ghost use Rattle.std.specs.List.{sum_by};
ghost use Rattle.std.specs.Vec.{vec_len, vec_capacity};
ghost use Rattle.ring_rules.specs.declared.event.Event.{Event as AnEvent};
ghost use Rattle.lamport_merge.specs.Merge.{Log, merged, events_of, AreLogs, PartiesDiffer};
ghost use Rattle.lamport_merge.specs.Logs.{log_of};

use crate::log::LocalLog;
use crate::order::{first, tell};
use ring_names::OutOfMemory;
use ring_rules::Event;
use std::alloc::Global;
use std::marker::Model;

/// The logs of a round while they are gathered. Room for all of them was made before the round, so that no memory is
/// wanted behind it.
#[derive(Drop)]
pub struct Gathered {
    logs: Vec<LocalLog>,
    // Of each log, from where on it is to be merged: nothing is merged before all are gathered.
    nexts: Vec<usize>,
}

impl Model for Gathered {
    ghost use Rattle.std.specs.Prelude.{◌≡◌, ◌-◌, min, length, replicate};
    ghost use Rattle.std.specs.Vec.{vec_len, vec_capacity};
    ghost use Rattle.lamport_merge.specs.Logs.{GatheredSeen, logs_of};

    ghost Value = { GatheredSeen };

    ghost view = { λ g. record {
      logs = logs_of g.logs.items;
      room = min (vec_capacity g.logs - vec_len g.logs) (vec_capacity g.nexts - vec_len g.nexts);
    } };

    ghost invariant = { λ g. g.nexts.items ≡ replicate (length g.logs.items) 0 };
}

impl Gathered {
    /// No logs yet, and room for that many.
    pub fn with_room(alloc: Global, count: usize) -> Result<Gathered, OutOfMemory>
        ensures logs { IfOk result (λ g. g.logs ≡ []) }
        ensures room { IfOk result (λ g. count ≤ g.room) }
    {
        Ok(Gathered {
            logs: Vec::with_capacity(alloc, count)?,
            nexts: Vec::with_capacity(alloc, count)?,
        })
    }

    /// One more log. It takes no memory.
    pub fn add(&mut self, log: LocalLog)
        requires { 0 < (self.old).room }
        ensures logs { (self.new).logs ≡ (self.old).logs ++ log_of log ∷ [] }
        ensures room { (self.old).room ≡ (self.new).room + 1 }
    {
        self.logs.push_reserved(log);
        self.nexts.push_reserved(0);
    }

    /// Moves what happened in the round behind these events, in the order of `merge`. It takes no memory: room was made.
    pub fn merge_behind(self, events: &mut Vec<Event>)
        requires parties { PartiesDiffer self.logs }
        requires room { vec_len events.old + sum_by (λ (l : Log AnEvent). length l.entries) self.logs ≤ vec_capacity events.old }
        ensures merged { events.new.items ≡ events.old.items ++ events_of (merged self.logs) }
        ensures logs { AreLogs self.logs }
    {
        let Gathered {
            mut logs,
            mut nexts,
        } = self;
        tell(&logs);
        'each: loop {
            let Some((place, _, _)) = first(&logs, &nexts) else {
                return;
            };
            let event = logs[place].take_next(&mut nexts[place]);
            events.push_reserved(event);
        }
    }
}
