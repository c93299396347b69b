//! std's readers and writers as sources and sinks.
ghost use Rattle.std.specs.Prelude.{◌≡◌, ◌<◌, ◌≤◌, length, false, IfOk, OnErr};
ghost use Rattle.std.specs.Io.{ReadsAtMost};
ghost use Rattle.std.specs.Io.KnownBytes.{ReadConsumes};
ghost use Rattle.ring_io.specs.Contents.{WriteGains};
ghost use Rattle.ring_io.specs.Count.{CountsFault, Rose, next_count};

use crate::sink::Sink;
use crate::source::{Failed, Source};
use std::io::{Read, Write};
use std::marker::Model;

/// A reader or a writer of std, with a count of its faults. Each read or write is one call of its, and each
/// call that fails, also one that was only interrupted, is a fault, and so is a write that takes nothing.
#[derive(Drop, Debug)]
pub struct Counting<T> {
    inner: T,
    faults: u64,
}

/// A source over a reader of std, whose bytes are told where the reader's are.
pub type ReadSource<R> = Counting<R>;

/// A sink over a writer of std, whose bytes are told where the writer's are. What the writer keeps back
/// isn't flushed.
pub type WriteSink<W> = Counting<W>;

impl<T> Model for Counting<T> {
    ghost use Rattle.ring_io.specs.Counted.{Counted};

    ghost Value = { Counted T };

    ghost view = { λ c. record { inner = c.inner; faults = c.faults } };
}

impl<T> Counting<T> {
    /// A source over a reader, or a sink over a writer, of which no call has failed.
    pub fn new(inner: T) -> Counting<T>
        ensures { result ≡ record { inner = inner; faults = 0 } }
    {
        Counting { inner, faults: 0 }
    }

    /// A call has failed.
    fn fail(&mut self) -> Failed
        ensures counted { self.new ≡ record self.old { faults = next_count (self.old).faults } }
        ensures never_falls { (self.old).faults ≤ (self.new).faults }
    {
        self.faults = self.faults.saturating_add(1);
        Failed
    }
}

impl<R: Read> Source for Counting<R> {
    ghost remaining = { λ s. R.remaining s.inner };

    ghost faults = { λ s. s.faults };

    fn read(&mut self, buf: &mut [u8]) -> Result<usize, Failed>
        ensures bound { ReadsAtMost result buf.new }
        ensures bytes { ReadConsumes (R.remaining (self.old).inner) (R.remaining (self.new).inner) result buf.new }
        ensures never_falls { (self.old).faults ≤ (self.new).faults }
        ensures failed { OnErr result (Rose (self.old).faults (self.new).faults) }
        ensures counted { CountsFault (self.old).faults (self.new).faults result }
    {
        match self.inner.read(buf) {
            Ok(n) => Ok(n),
            Err(_) => Err(self.fail()),
        }
    }
}

impl<W: Write> Sink for Counting<W> {
    ghost contents = { λ s. W.contents s.inner };

    ghost faults = { λ s. s.faults };

    ghost may_lose_track = { false };

    fn write(&mut self, piece: &[u8]) -> Result<usize, Failed>
        requires { 0 < length piece.now }
        ensures some { IfOk result (λ n. 0 < n) }
        ensures bound { IfOk result (λ n. n ≤ length piece.now) }
        ensures bytes { WriteGains false (W.contents (self.old).inner) (W.contents (self.new).inner) result piece.now }
        ensures never_falls { (self.old).faults ≤ (self.new).faults }
        ensures failed { OnErr result (Rose (self.old).faults (self.new).faults) }
        ensures counted { CountsFault (self.old).faults (self.new).faults result }
    {
        match self.inner.write(piece) {
            Ok(n) if n > 0 => Ok(n),
            _ => Err(self.fail()),
        }
    }
}
