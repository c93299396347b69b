//! A source and a sink over memory that never fail.
ghost use Rattle.std.specs.Prelude.{◌≡◌, ℕ, ◌+◌, ◌-◌, ◌<◌, ◌≤◌, ◌↔◌, ◌++◌, List, [], length, take, drop, min, Some};
ghost use Rattle.std.specs.Prelude.{Ok, IfOk, IsOk, true};
ghost use Rattle.std.specs.Io.{ReadsAtMost};
ghost use Rattle.std.specs.Io.KnownBytes.{ReadConsumes};
ghost use Rattle.ring_io.specs.Contents.{WriteGains};
ghost use Rattle.ring_io.specs.Memory.{kept_more, told_bytes};

use crate::front::Unread;
use crate::room::Room;
use crate::sink::Sink;
use crate::source::{Failed, Source};
use ring_names::OutOfMemory;
use std::alloc::Global;
use std::marker::Model;

/// A source of bytes that are given, which never fails.
#[derive(Drop, Debug)]
pub struct SureSource {
    left: Unread,
}

impl Model for SureSource {
    ghost use Rattle.std.specs.Prelude.{ℕ, List};

    ghost Value = { List ℕ };

    ghost view = { λ s. s.left };
}

impl SureSource {
    /// A source that gives as many bytes a call as the buffer takes.
    pub fn new(bytes: Vec<u8>) -> SureSource
        ensures { result ≡ bytes.items }
    {
        SureSource {
            left: Unread::new(bytes),
        }
    }
}

impl Source for SureSource {
    ghost remaining = { λ s. Some s };

    ghost faults = { λ _. 0 };

    fn read(&mut self, buf: &mut [u8]) -> Result<usize, Failed>
        ensures bound { ReadsAtMost result buf.new }
        ensures bytes { ReadConsumes (Some self.old) (Some self.new) result buf.new }
        ensures sure { IsOk result }

        // A call gives all that it may.
        ensures given { result ≡ Ok (min (length buf.old) (length self.old)) }
        ensures copied { IfOk result (λ n. buf.new ≡ take n self.old ++ drop n buf.old) }
        ensures rest { IfOk result (λ n. self.new ≡ drop n self.old) }
    {
        let most = buf.len();
        Ok(self.left.read(buf, most))
    }
}

/// A sink that never fails: it keeps so many bytes, for which memory is found when it is made, and
/// counts the others. It tells the bytes given while it keeps them all, and tells none after that.
#[derive(Drop, Debug)]
pub struct SureSink {
    kept: Room,
    lost: u64,
}

impl Model for SureSink {
    ghost use Rattle.ring_io.specs.Memory.{Kept};

    ghost Value = { Kept };

    ghost view = { λ s. record { held = s.kept; lost = s.lost } };
}

impl SureSink {
    /// A sink that keeps the first `room` bytes.
    pub fn new(alloc: Global, room: usize) -> Result<SureSink, OutOfMemory>
        ensures { IfOk result (λ s. s ≡ record { held = record { bytes = []; room = room }; lost = 0 }) }
    {
        Ok(SureSink {
            kept: Room::new(alloc, room)?,
            lost: 0,
        })
    }

    /// The bytes kept.
    pub fn bytes(&self) -> &[u8]
        ensures { result.now ≡ (self.now).held.bytes }
    {
        self.kept.bytes()
    }

    /// How many bytes were taken and not kept, at most the last value of a `u64`.
    pub fn lost(&self) -> u64
        ensures { result ≡ (self.now).lost }
    {
        self.lost
    }
}

impl Sink for SureSink {
    ghost contents = { told_bytes };

    ghost faults = { λ _. 0 };

    ghost may_lose_track = { true };

    fn write(&mut self, piece: &[u8]) -> Result<usize, Failed>
        requires { 0 < length piece.now }
        ensures some { IfOk result (λ n. 0 < n) }
        ensures bound { IfOk result (λ n. n ≤ length piece.now) }
        ensures bytes { WriteGains true (told_bytes self.old) (told_bytes self.new) result piece.now }
        ensures sure { IsOk result }

        // A call takes the whole piece, and keeps all of it that there is room for.
        ensures taken { result ≡ Ok (length piece.now) }
        ensures kept { self.new ≡ kept_more self.old piece.now }
    {
        let n = self.kept.free().min(piece.len());
        self.kept.push(&piece[..n]);
        self.lost = self.lost.saturating_add((piece.len() - n) as u64);
        Ok(piece.len())
    }
}
