//! Reading a source to its end, and writing a whole text.
ghost use Rattle.std.specs.Prelude.{◌≡◌, ℕ, ◌+◌, ◌<◌, ◌≤◌, List, length, take, IfOk, IfErr, OnOk, OnErr, IfSome};
ghost use Rattle.std.specs.Prelude.{vec_len};
ghost use Rattle.std.specs.Io.KnownBytes.{Consumes, IsAtEnd};
ghost use Rattle.ring_io.specs.Contents.{Gains};
ghost use Rattle.ring_io.specs.Count.{Rose};

use crate::sink::Sink;
use crate::source::{Failed, Source};
use std::alloc::Global;
use thiserror::Error;

/// Why a source wasn't read to its end.
#[derive(Clone, Copy, PartialEq, Eq, Debug, Error)]
pub enum ReadEnd {
    /// A read failed.
    #[error("a read failed")]
    Fault,
    /// There are more bytes than asked for.
    #[error("the input is too large")]
    TooLarge,
    /// Memory for the bytes was not found.
    #[error("out of memory")]
    OutOfMemory,
}

/// A text that was written in part.
#[derive(Clone, Copy, PartialEq, Eq, Debug)]
pub struct Short {
    /// How many bytes of its front were written.
    pub written: u64,
}

/// How many bytes are asked for in one read.
const PIECE: usize = 4096;

/// Reads the source to its end, which it has to reach within `most` bytes: one with no end is too
/// large. No more than `most` and 4096 bytes are read. Whatever the answer, what was read is gone
/// from the source.
pub fn read_all<S: Source>(alloc: Global, source: &mut S, most: u64) -> Result<Vec<u8>, ReadEnd>
    ensures within { IfOk result (λ v. vec_len v ≤ most) }
    ensures bytes { IfOk result (λ v. IfSome (S.remaining source.old) (λ bytes. v.items ≡ bytes)) }
    ensures end { OnOk result (IsAtEnd (S.remaining source.new)) }
    ensures fault { result ≡ Err ReadEnd.Fault → Rose (S.faults source.old) (S.faults source.new) }
    ensures large { result ≡ Err ReadEnd.TooLarge
        → IfSome (S.remaining source.old) (λ bytes. most < length bytes) }
    ensures in_part { OnErr result ((bytes : List ℕ) × (length bytes ≤ most + 4096)
        × Consumes (S.remaining source.old) (S.remaining source.new) bytes) }
    ensures never_falls { S.faults source.old ≤ S.faults source.new }
{
    let mut bytes = Vec::new(alloc);
    let mut piece = [0; PIECE];
    for _round in 0..u64::MAX {
        match source.read(&mut piece) {
            Ok(0) => return Ok(bytes),
            Ok(n) => {
                if (bytes.len() + n) as u64 > most {
                    return Err(ReadEnd::TooLarge);
                }
                match bytes.extend_from_slice(&piece[..n]) {
                    Ok(()) => {}
                    Err(_) => return Err(ReadEnd::OutOfMemory),
                }
            }
            Err(Failed) => return Err(ReadEnd::Fault),
        }
    }
    unreachable!()
}

/// Writes the whole text, in as many calls as the sink wants; an empty one in none. Where the sink
/// fails, the answer says how much of the text it holds.
pub fn write_all<K: Sink>(sink: &mut K, bytes: &[u8]) -> Result<(), Short>
    ensures ok { OnOk result (Gains K.may_lose_track (K.contents sink.old) (K.contents sink.new) bytes.now) }
    ensures fault { OnErr result (Rose (K.faults sink.old) (K.faults sink.new)) }
    ensures short { IfErr result (λ e. e.written < length bytes.now) }
    ensures written { IfErr result (λ e. Gains K.may_lose_track (K.contents sink.old)
        (K.contents sink.new) (take e.written bytes.now)) }
    ensures never_falls { K.faults sink.old ≤ K.faults sink.new }
{
    let mut written = 0;
    while written < bytes.len() {
        match sink.write(&bytes[written..]) {
            Ok(n) => written += n,
            Err(Failed) => {
                return Err(Short {
                    written: written as u64,
                });
            }
        }
    }
    Ok(())
}
