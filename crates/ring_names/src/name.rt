//! The name of a member.
ghost use Rattle.std.specs.Prelude.{◌≡◌, ℕ, ◌<◌, ◌≤◌, ◌-◌, ◌++◌, length, replicate, position, IfSome, OnOk};
ghost use Rattle.ring_names.specs.Name.{IsName, is_bad_name_byte, name_or_fault};

use std::marker::Model;

/// Why bytes are no name: the first of these that holds.
#[derive(Clone, Copy, PartialEq, Eq, Debug)]
pub enum NameFault {
    /// There is no byte.
    Empty,
    /// There are more than 16 bytes.
    TooLong,
    /// The byte at this place, from 0, is the first that no name holds.
    BadByte { at: u32 },
}

/// The name of a member: 1 to 16 bytes of `a` to `z` and `0` to `9`.
#[derive(Clone, Copy, PartialEq, Eq, PartialOrd, Ord, Debug)]
pub struct Name {
    bytes: [u8; 16],
    len: usize,
}

impl Model for Name {
    ghost use Rattle.std.specs.Prelude.{◌≡◌, ℕ, ◌-◌, ◌≤◌, List, ◌++◌, length, take, drop, replicate};
    ghost use Rattle.std.proofs.Common.{arith};
    ghost use Rattle.std.proofs.lemmas.Grind.{common_steps};
    ghost use Rattle.ring_names.specs.Name.{IsName};

    ghost Value = { List ℕ };

    ghost view = { λ n. take n.len n.bytes };

    ghost invariant = { λ n. (n.len ≤ 16) × (length n.bytes ≡ 16) × (drop n.len n.bytes ≡ replicate (16 - n.len) 0)
        × IsName (take n.len n.bytes) };

    ghost inverse = { λ v. record { bytes = v ++ replicate (16 - length v) 0; len = length v } };

    ghost inverse_ok = { λ a h. Prim.grind (arith, common_steps) };
}

impl Name {
    /// The bytes of the name.
    pub fn bytes(&self) -> &[u8]
        ensures bytes { result.now ≡ self.now }
        ensures grammar { IsName result.now }
    {
        &self.bytes[..self.len]
    }

    /// Reads a name. The faults are judged in the order of their list.
    pub fn read(bytes: &[u8]) -> Result<Name, NameFault>
        ensures answer { result ≡ name_or_fault bytes.now }
        ensures grammar { OnOk result (IsName bytes.now) }
    {
        if bytes.is_empty() {
            return Err(NameFault::Empty);
        }
        if bytes.len() > 16 {
            return Err(NameFault::TooLong);
        }
        match bad_place(bytes) {
            Some(at) => Err(NameFault::BadByte { at: at as u32 }),
            None => Ok(Name {
                bytes: padded(bytes),
                len: bytes.len(),
            }),
        }
    }
}

/// Whether no name holds this byte.
fn is_bad(byte: u8) -> bool
    ensures { result ≡ is_bad_name_byte byte }
{
    !(byte.is_ascii_lowercase() || byte.is_ascii_digit())
}

fn bad_place(bytes: &[u8]) -> Option<usize>
    ensures place { result ≡ position is_bad_name_byte bytes.now }
    ensures within { IfSome result (λ at. at < length bytes.now) }
{
    bytes.iter().position(|byte| is_bad(*byte))
}

fn padded(bytes: &[u8]) -> [u8; 16]
    requires { length bytes.now ≤ 16 }
    ensures { result ≡ bytes.now ++ replicate (16 - length bytes.now) 0 }
{
    let mut kept = [0; 16];
    kept[..bytes.len()].copy_from_slice(bytes);
    kept
}
