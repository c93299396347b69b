//! The body of a message.
ghost use Rattle.std.specs.Prelude.{◌≡◌, ℕ, ◌<◌, ◌≤◌, length, position, IfOk, IfSome, OnOk, IfErr};
ghost use Rattle.ring_names.specs.Body.{IsBody, is_bad_body_byte, FailsAsBody};

use crate::memory::OutOfMemory;
use smallvec::SmallVec;
use std::alloc::Global;
use std::marker::Model;

/// Why bytes are no body: the first of these that holds.
#[derive(Clone, Copy, PartialEq, Eq, Debug)]
pub enum BodyFault {
    /// There are more than 256 bytes.
    TooLong,
    /// The byte at this place, from 0, is the first that no body holds.
    BadByte { at: u32 },
    /// The bytes are a body, and memory for it was not found.
    OutOfMemory,
}

/// The body of a message: 0 to 256 bytes from the space to the tilde. One of at most 16 bytes takes no
/// memory beside its own.
#[derive(Drop, Debug)]
pub struct Body {
    bytes: SmallVec<u8, 16>,
}

impl Model for Body {
    ghost use Rattle.std.specs.Prelude.{ℕ, List};
    ghost use Rattle.ring_names.specs.Body.{IsBody};

    ghost Value = { List ℕ };

    ghost view = { λ b. b.bytes.items };

    ghost invariant = { λ b. IsBody b.bytes.items };
}

impl Body {
    /// Reads a body. The faults are judged in the order of their list.
    pub fn read(alloc: Global, bytes: &[u8]) -> Result<Body, BodyFault>
        ensures bytes { IfOk result (λ body. body ≡ bytes.now) }
        ensures grammar { OnOk result (IsBody bytes.now) }
        ensures fault { IfErr result (FailsAsBody bytes.now) }
    {
        if bytes.len() > 256 {
            return Err(BodyFault::TooLong);
        }
        if let Some(at) = bad_place(bytes) {
            return Err(BodyFault::BadByte { at: at as u32 });
        }
        match SmallVec::from_slice(alloc, bytes) {
            Ok(bytes) => Ok(Body { bytes }),
            Err(_) => Err(BodyFault::OutOfMemory),
        }
    }

    /// The bytes of the body.
    pub fn bytes(&self) -> &[u8]
        ensures bytes { result.now ≡ self.now }
        ensures grammar { IsBody result.now }
    {
        self.bytes.as_slice()
    }

    /// An equal body.
    pub fn copy(&self) -> Result<Body, OutOfMemory>
        ensures { IfOk result (λ body. body ≡ self.now) }
    {
        match SmallVec::from_slice(*self.bytes.allocator(), self.bytes.as_slice()) {
            Ok(bytes) => Ok(Body { bytes }),
            Err(_) => Err(OutOfMemory),
        }
    }
}

/// Whether no body holds this byte.
fn is_bad(byte: u8) -> bool
    ensures { result ≡ is_bad_body_byte byte }
{
    byte < b' ' || byte > b'~'
}

fn bad_place(bytes: &[u8]) -> Option<usize>
    ensures place { result ≡ position is_bad_body_byte bytes.now }
    ensures within { IfSome result (λ at. at < length bytes.now) }
{
    bytes.iter().position(|byte| is_bad(*byte))
}
