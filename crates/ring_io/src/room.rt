//! The bytes that a sink over memory holds.
ghost use Rattle.std.specs.Prelude.{◌≡◌, ◌≤◌, ◌++◌, ◌==◌, [], length, IfOk};
ghost use Rattle.ring_io.specs.Memory.{free_in};

use ring_names::OutOfMemory;
use std::alloc::Global;
use std::marker::Model;

/// Bytes with room for so many, which is found when it is made.
#[derive(Drop, Debug)]
pub struct Room {
    bytes: Vec<u8>,
    room: usize,
}

impl Model for Room {
    ghost use Rattle.std.specs.Prelude.{◌≤◌, vec_len, vec_capacity};
    ghost use Rattle.ring_io.specs.Memory.{Held};

    ghost Value = { Held };

    ghost view = { λ r. record { bytes = r.bytes.items; room = r.room } };

    ghost invariant = { λ r. (vec_len r.bytes ≤ r.room) × (r.room ≤ vec_capacity r.bytes) };
}

impl Room {
    /// Room for so many bytes, of which it holds none.
    pub fn new(alloc: Global, room: usize) -> Result<Room, OutOfMemory>
        ensures { IfOk result (λ r. r ≡ record { bytes = []; room = room }) }
    {
        Ok(Room {
            bytes: Vec::with_capacity(alloc, room)?,
            room,
        })
    }

    /// The bytes held.
    pub fn bytes(&self) -> &[u8]
        ensures { result.now ≡ (self.now).bytes }
    {
        &self.bytes
    }

    /// Whether there is room for no further byte.
    pub fn is_full(&self) -> bool
        ensures { result ≡ (length (self.now).bytes == (self.now).room) }
    {
        self.bytes.len() == self.room
    }

    /// For how many further bytes there is room.
    pub fn free(&self) -> usize
        ensures free { result ≡ free_in self.now }
        ensures within { length (self.now).bytes ≤ (self.now).room }
    {
        self.room - self.bytes.len()
    }

    /// Holds these bytes too.
    pub fn push(&mut self, more: &[u8])
        requires { length more.now ≤ free_in self.old }
        ensures { self.new ≡ record self.old { bytes = (self.old).bytes ++ more.now } }
    {
        match self.bytes.extend_from_slice(more) {
            Ok(()) => {}
            Err(_) => unreachable!(),
        }
    }
}
