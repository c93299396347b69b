//! A source and a sink over memory, whose calls move few bytes and fail where they are told to.
ghost use Rattle.std.specs.Prelude.{◌≡◌, ◌+◌, ◌-◌, ◌<◌, ◌≤◌, ◌↔◌, ◌++◌, [], length, take, drop, Some};
ghost use Rattle.std.specs.Prelude.{false, IsErr, IsTrue, IfOk, OnErr, MatchResult};
ghost use Rattle.std.specs.Io.{ReadsAtMost};
ghost use Rattle.std.specs.Io.KnownBytes.{ReadConsumes};
ghost use Rattle.ring_io.specs.Contents.{WriteGains};
ghost use Rattle.ring_io.specs.Count.{Rose};
ghost use Rattle.ring_io.specs.Memory.{given_count, is_next_listed, is_next_refused, no_calls, one_failed, one_more};
ghost use Rattle.ring_io.specs.Memory.{taken_count};

use crate::calls::Calls;
use crate::front::Unread;
use crate::room::Room;
use crate::sink::Sink;
use crate::source::{Failed, Source};
use ring_names::OutOfMemory;
use std::alloc::Global;
use std::marker::Model;

/// A source of bytes that are given.
#[derive(Drop, Debug)]
pub struct MemorySource {
    left: Unread,
    calls: Calls,
}

impl Model for MemorySource {
    ghost use Rattle.ring_io.specs.Memory.{Supply};

    ghost Value = { Supply };

    ghost view = { λ s. record { left = s.left; calls = s.calls } };
}

impl MemorySource {
    /// A source that gives `most` bytes a call at most, 1 at least. The calls fail whose numbers,
    /// from 1, are in `fails`.
    pub fn new(bytes: Vec<u8>, most: usize, fails: Vec<u32>) -> MemorySource
        ensures { result ≡ record { left = bytes.items; calls = no_calls most fails.items } }
    {
        MemorySource {
            left: Unread::new(bytes),
            calls: Calls::new(most, fails),
        }
    }
}

impl Source for MemorySource {
    ghost remaining = { λ s. Some s.left };

    ghost faults = { λ s. s.calls.faults };

    fn read(&mut self, buf: &mut [u8]) -> Result<usize, Failed>
        ensures bound { ReadsAtMost result buf.new }
        ensures bytes { ReadConsumes (Some (self.old).left) (Some (self.new).left) result buf.new }
        ensures never_falls { (self.old).calls.faults ≤ (self.new).calls.faults }
        ensures failed { OnErr result (Rose (self.old).calls.faults (self.new).calls.faults) }

        // Exactly the listed calls fail, and the others give all that they may.
        ensures listed { IsErr result ↔ IsTrue (is_next_listed (self.old).calls) }
        ensures given { IfOk result (λ n. n ≡ given_count self.old (length buf.old)) }
        ensures ok { IfOk result (λ n. self.new
            ≡ record { left = drop n (self.old).left; calls = one_more (self.old).calls }) }
        ensures err { OnErr result (self.new ≡ record self.old { calls = one_failed (self.old).calls }) }
        ensures rest { MatchResult result (λ n. drop n buf.new ≡ drop n buf.old) (λ _. buf.new ≡ buf.old) }
    {
        if self.calls.is_next_listed() {
            self.calls.count_fault();
            return Err(Failed);
        }
        self.calls.count();
        Ok(self.left.read(buf, self.calls.most()))
    }
}

/// A sink with so much room, which is found when it is made.
#[derive(Drop, Debug)]
pub struct MemorySink {
    held: Room,
    calls: Calls,
}

impl Model for MemorySink {
    ghost use Rattle.ring_io.specs.Memory.{Store};

    ghost Value = { Store };

    ghost view = { λ s. record { held = s.held; calls = s.calls } };
}

impl MemorySink {
    /// A sink that takes `room` bytes in all, and `most` a call at most, 1 at least. A call fails that
    /// finds it full, and so do those whose numbers, from 1, are in `fails`.
    pub fn new(
        alloc: Global,
        room: usize,
        most: usize,
        fails: Vec<u32>,
    ) -> Result<MemorySink, OutOfMemory>
        ensures { IfOk result (λ s. s
            ≡ record { held = record { bytes = []; room = room }; calls = no_calls most fails.items }) }
    {
        Ok(MemorySink {
            held: Room::new(alloc, room)?,
            calls: Calls::new(most, fails),
        })
    }

    /// The bytes held.
    pub fn bytes(&self) -> &[u8]
        ensures { result.now ≡ (self.now).held.bytes }
    {
        self.held.bytes()
    }
}

impl Sink for MemorySink {
    ghost contents = { λ s. Some s.held.bytes };

    ghost faults = { λ s. s.calls.faults };

    ghost may_lose_track = { false };

    fn write(&mut self, piece: &[u8]) -> Result<usize, Failed>
        requires { 0 < length piece.now }
        ensures some { IfOk result (λ n. 0 < n) }
        ensures bound { IfOk result (λ n. n ≤ length piece.now) }
        ensures bytes { WriteGains false (Some (self.old).held.bytes) (Some (self.new).held.bytes) result piece.now }
        ensures never_falls { (self.old).calls.faults ≤ (self.new).calls.faults }
        ensures failed { OnErr result (Rose (self.old).calls.faults (self.new).calls.faults) }

        // Exactly the listed calls fail and those that find no room, and the others take all that they may.
        ensures refused { IsErr result ↔ IsTrue (is_next_refused self.old) }
        ensures taken { IfOk result (λ n. n ≡ taken_count self.old (length piece.now)) }
        ensures ok { IfOk result (λ n. self.new ≡ record {
          held = record (self.old).held { bytes = (self.old).held.bytes ++ take n piece.now };
          calls = one_more (self.old).calls;
        }) }
        ensures err { OnErr result (self.new ≡ record self.old { calls = one_failed (self.old).calls }) }
    {
        if self.calls.is_next_listed() || self.held.is_full() {
            self.calls.count_fault();
            return Err(Failed);
        }
        self.calls.count();
        let n = self.calls.most().min(piece.len().min(self.held.free()));
        self.held.push(&piece[..n]);
        Ok(n)
    }
}
