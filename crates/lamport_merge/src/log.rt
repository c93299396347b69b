//! The log of one party.
ghost use Rattle.std.specs.Prelude.{◌≡◌, ◌<◌, ◌≤◌, ◌+◌, ◌∷◌, ℕ, drop, length, OnOk, OnErr};
ghost use Rattle.lamport_merge.specs.Merge.{RiseAbove, last_time as last_time_in};
ghost use Rattle.lamport_merge.specs.Logs.{new_log, emptied, with_entry, log_of};

use ring_names::OutOfMemory;
use ring_rules::Event;
use std::alloc::Global;
use std::marker::Model;
use std::mem;

/// What a party did in a round, each event with the time of the party's clock. Times count from 1 and rise
/// strictly.
#[derive(Drop, Debug)]
pub struct LocalLog {
    /// 0 for the registrar, else a member's id, as in a `Stamp`.
    pub party: u32,
    /// The events in their order, each behind its time.
    pub entries: Vec<(u32, Event)>,
}

impl Model for LocalLog {
    ghost use Rattle.std.specs.Prelude.{◌-◌};
    ghost use Rattle.std.proofs.Common.{vec_len, vec_capacity};
    ghost use Rattle.lamport_merge.specs.Merge.{RiseAbove};
    ghost use Rattle.lamport_merge.specs.Logs.{LogSeen};

    ghost Value = { LogSeen };

    ghost view = { λ l. record {
      party = l.party;
      entries = l.entries.items;
      spare = vec_capacity l.entries - vec_len l.entries;
    } };

    ghost invariant = { λ l. RiseAbove 0 l.entries.items };
}

impl LocalLog {
    /// The log of a party that has done nothing. It takes no memory; the allocator is for what the log reserves.
    pub fn new(alloc: Global, party: u32) -> LocalLog
        ensures { result ≡ new_log party result.spare }
    {
        LocalLog {
            party,
            entries: Vec::new(alloc),
        }
    }

    /// Forgets all entries, for the next round. It takes no memory, and gives none back.
    pub fn clear(&mut self)
        ensures { self.new ≡ emptied self.old }
    {
        self.entries.clear();
    }

    /// Makes room for `n` entries more; memory is wanted only where there is less room.
    pub fn reserve(&mut self, n: usize) -> Result<(), OutOfMemory>
        ensures ok { OnOk result (n ≤ (self.new).spare) }
        ensures full { OnErr result ((self.old).spare < n) }
        ensures spare { (self.old).spare ≤ (self.new).spare }
        ensures kept { log_of self.new ≡ log_of self.old }
        ensures err { OnErr result (self.new ≡ self.old) }
    {
        self.entries.reserve(n)?;
        Ok(())
    }

    /// For how many more entries there is room without further memory.
    pub fn spare(&self) -> usize
        ensures { result ≡ (self.now).spare }
    {
        self.entries.capacity() - self.entries.len()
    }

    /// The party does this, at this time of its clock. It takes no memory: room was reserved.
    pub fn push(&mut self, time: u32, event: Event)
        requires room { 0 < (self.old).spare }
        requires later { last_time_in 0 (self.old).entries < time }
        ensures { self.new ≡ with_entry time event self.old }
    {
        self.entries.push_reserved((time, event));
    }

    /// Whose log it is.
    pub fn party(&self) -> u32
        ensures { result ≡ (self.now).party }
    {
        self.party
    }

    /// The events in their order, each behind its time.
    pub fn entries(&self) -> &[(u32, Event)]
        ensures value { result.now ≡ (self.now).entries }
        ensures rise { RiseAbove 0 (self.now).entries }
    {
        self.entries.as_slice()
    }

    /// The time of the last entry, and 0 where there is none.
    pub fn last_time(&self) -> u32
        ensures { result ≡ last_time_in 0 (self.now).entries }
    {
        match self.entries.last() {
            Some(entry) => entry.0,
            None => 0,
        }
    }

    /// Takes the event of the entry at this place, which is there, and moves the place on. At its time some other event
    /// stands there then. It takes no memory.
    pub(crate) fn take_next(&mut self, next: &mut usize) -> Event
        requires { next.old < length (self.old).entries }
        ensures next { next.new ≡ next.old + 1 }
        ensures event { (time : ℕ) × (drop next.old (self.old).entries ≡ (time, result) ∷ drop next.new (self.new).entries) }
        ensures party { (self.new).party ≡ (self.old).party }
    {
        let entry = &mut self.entries[*next];
        *next += 1;
        let by = *entry.1.by();
        mem::replace(&mut entry.1, Event::Put { by })
    }

    pub(crate) fn allocator(&self) -> Global {
        *self.entries.allocator()
    }
}
