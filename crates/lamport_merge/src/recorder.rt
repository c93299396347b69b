//! What a party records of a round.
ghost use Rattle.std.specs.Prelude.{◌≡◌, ◌+◌, ◌-◌, ◌<◌, ◌≤◌, [], false, cond, OnOk, OnErr};
ghost use Rattle.lamport_merge.specs.Recorder.{begun, nothing_recorded, met as meets, ticked, noted as notes, given};
ghost use Rattle.lamport_merge.specs.Recorder.{noted_some as notes_some};
ghost use Rattle.lamport_merge.specs.Recorder.{is_used_up, is_late as comes_late, time_in};
ghost use Rattle.lamport_merge.specs.Logs.{log_of};

use crate::clock::Clock;
use crate::log::LocalLog;
use ring_names::{OutOfMemory, Stamp};
use ring_rules::Event;
use std::alloc::Global;
use std::marker::Model;
use std::mem;

/// From this time on a stamp is met only in a later round.
const LAST: u32 = 4_294_967_294;

/// The clock and the log of a party. In a round that it shares with others, what it gives carries the time of its
/// clock; where it is alone, time 0.
#[derive(Drop)]
pub struct Recorder {
    clock: Clock,
    alone: bool,
    log: LocalLog,
    // For how many entries room is kept; the log may have more.
    kept: usize,
}

impl Model for Recorder {
    ghost use Rattle.std.specs.Prelude.{◌≤◌};
    ghost use Rattle.lamport_merge.specs.Merge.{last_time};
    ghost use Rattle.lamport_merge.specs.Recorder.{RecorderSeen};

    ghost Value = { RecorderSeen };

    ghost view = { λ r. record {
      recorded = record {
        round = r.clock.round;
        is_alone = r.alone;
        time = r.clock.time;
        party = r.log.party;
        entries = r.log.entries;
      };
      spare = r.kept;
    } };

    ghost invariant = { λ r. (last_time 0 r.log.entries ≤ r.clock.time) × (r.kept ≤ r.log.spare) };
}

impl Recorder {
    /// Of a party that has done nothing: 0 for the registrar, else a member's id. It takes no memory; the allocator is
    /// for what is recorded later.
    pub fn new(alloc: Global, party: u32) -> Recorder
        ensures { result.recorded ≡ nothing_recorded party }
    {
        Recorder {
            clock: Clock::new(),
            alone: true,
            log: LocalLog::new(alloc, party),
            kept: 0,
        }
    }

    /// A round begins, for which there is room for that many entries: the clock stands at 0, and nothing is recorded. Want
    /// of memory leaves all as it was.
    pub fn begin(&mut self, round: u32, alone: bool, entries: u32) -> Result<(), OutOfMemory>
        ensures ok { OnOk result ((self.new).recorded ≡ begun round alone (self.old).recorded) }
        ensures room { OnOk result (entries ≤ (self.new).spare) }
        ensures err { OnErr result (self.new ≡ self.old) }
    {
        self.log.reserve(entries as usize)?;
        self.log.clear();
        self.clock.begin(round);
        self.alone = alone;
        self.kept = entries as usize;
        Ok(())
    }

    /// Room for one entry beside that which there is.
    pub fn make_room(&mut self) -> Result<(), OutOfMemory>
        ensures same { (self.new).recorded ≡ (self.old).recorded }
        ensures room { OnOk result ((self.old).spare + 1 ≤ (self.new).spare) }
        ensures err { OnErr result (self.new ≡ self.old) }
    {
        let Some(entries) = self.kept.checked_add(1) else {
            return Err(OutOfMemory);
        };
        self.log.reserve(entries)?;
        self.kept = entries;
        Ok(())
    }

    /// The party does this, at the next time of its clock. It takes no memory.
    pub fn note(&mut self, event: Event)
        requires room { 0 < (self.old).spare }
        requires lasts { is_used_up (self.old).recorded ≡ false }
        ensures noted { (self.new).recorded ≡ notes event (self.old).recorded }
        ensures room { (self.new).spare ≡ (self.old).spare - 1 }
    {
        let time = self.clock.tick();
        self.log.push(time, event);
        self.kept -= 1;
    }

    /// The party does this, where it does something: at the next time of its clock. It takes no memory.
    pub fn note_some(&mut self, event: Option<Event>)
        requires room { 0 < (self.old).spare }
        requires lasts { is_used_up (self.old).recorded ≡ false }
        ensures noted { (self.new).recorded ≡ notes_some event (self.old).recorded }
        ensures room { (self.old).spare ≤ (self.new).spare + 1 }
    {
        if let Some(event) = event {
            self.note(event);
        }
    }

    /// The party takes in what was given under this stamp.
    pub fn meet(&mut self, stamp: Stamp)
        ensures met { (self.new).recorded ≡ meets stamp (self.old).recorded }
        ensures room { (self.new).spare ≡ (self.old).spare }
    {
        if !self.alone {
            self.clock.meet(stamp);
        }
    }

    /// The stamp of what the party gives with what it does next.
    pub fn next_stamp(&self) -> Stamp
        requires { is_used_up (self.now).recorded ≡ false }
        ensures { result ≡ given (ticked (self.now).recorded) }
    {
        self.stamp_at(self.clock.time + 1)
    }

    /// The stamp of what the party gives now.
    pub fn stamp(&self) -> Stamp
        ensures { result ≡ given (self.now).recorded }
    {
        self.stamp_at(self.clock.time)
    }

    /// Whether what carries this stamp may be taken in only in a later round: no time of this one is above the stamp's.
    pub fn is_late(&self, stamp: Stamp) -> bool
        ensures { result ≡ comes_late (self.now).recorded stamp }
    {
        self.time_of(stamp) >= LAST
    }

    /// Whether the party does nothing more in this round, since the times of its clock are used up.
    pub fn spent(&self) -> bool
        ensures { result ≡ is_used_up (self.now).recorded }
    {
        self.clock.spent()
    }

    /// For how many more entries there is room.
    pub fn spare(&self) -> usize
        ensures { result ≡ (self.now).spare }
    {
        self.kept
    }

    /// What the party did in this round.
    pub fn log(&self) -> &LocalLog
        ensures party { result.now.party ≡ (self.now).recorded.party }
        ensures entries { result.now.entries ≡ (self.now).recorded.entries }
    {
        &self.log
    }

    /// Gives up what the party did in this round; nothing is recorded then, and there is no room. It takes no memory.
    pub fn give_log(&mut self) -> LocalLog
        ensures log { log_of result ≡ record { party = (self.old).recorded.party; entries = (self.old).recorded.entries } }
        ensures rest { (self.new).recorded ≡ record (self.old).recorded { entries = [] } }
    {
        let empty = LocalLog::new(self.log.allocator(), self.log.party());
        self.kept = 0;
        mem::replace(&mut self.log, empty)
    }

    /// The time of a stamp in this round.
    fn time_of(&self, stamp: Stamp) -> u32
        ensures { result ≡ time_in (self.now).recorded stamp }
    {
        if !self.alone && stamp.round == self.clock.round {
            stamp.time
        } else {
            0
        }
    }

    fn stamp_at(&self, time: u32) -> Stamp
        ensures { result ≡ record {
          round = (self.now).recorded.round;
          time = cond (self.now).recorded.is_alone 0 time;
          party = (self.now).recorded.party;
        } }
    {
        Stamp {
            round: self.clock.round,
            time: if self.alone { 0 } else { time },
            party: self.log.party(),
        }
    }
}
