//! The next bytes of a text.
ghost use Rattle.std.specs.Prelude.{◌≡◌, ℕ, ◌+◌, ◌<◌, ◌≤◌, ◌++◌, [], length, take, drop, min};

use std::marker::Model;

/// A text that is read piece by piece: the bytes left of it.
#[derive(Drop, Debug)]
pub struct Unread {
    bytes: Vec<u8>,
    at: usize,
}

impl Model for Unread {
    ghost use Rattle.std.specs.Prelude.{ℕ, ◌≤◌, List, drop, vec_len};

    ghost Value = { List ℕ };

    ghost view = { λ u. drop u.at u.bytes.items };

    ghost invariant = { λ u. u.at ≤ vec_len u.bytes };
}

impl Unread {
    /// A text of which nothing is read.
    pub fn new(bytes: Vec<u8>) -> Unread
        ensures { result ≡ bytes.items }
    {
        Unread { bytes, at: 0 }
    }

    /// Moves the next bytes into the front of `buf`, as many as there are and it holds, and `most` at most.
    /// Answers how many they were.
    pub fn read(&mut self, buf: &mut [u8], most: usize) -> usize
        requires some { 0 < length buf.old → 0 < most }
        ensures count { result ≡ min most (min (length buf.old) (length self.old)) }
        ensures copied { buf.new ≡ take result self.old ++ drop result buf.old }
        ensures split { self.old ≡ take result buf.new ++ self.new }
        ensures rest { self.new ≡ drop result self.old }
        ensures end { result ≡ 0 → 0 < length buf.old → self.new ≡ [] }
    {
        let n = read_front(&self.bytes, self.at, buf, most);
        self.at += n;
        n
    }
}

/// Copies the bytes from `at` on into the front of `buf`, as many as there are and it holds, and
/// `most` at most. Answers how many they were.
fn read_front(bytes: &[u8], at: usize, buf: &mut [u8], most: usize) -> usize
    requires within { at ≤ length bytes.now }
    requires some { 0 < length buf.old → 0 < most }
    ensures count { result ≡ min most (min (length buf.old) (length (drop at bytes.now))) }
    ensures copied { buf.new ≡ take result (drop at bytes.now) ++ drop result buf.old }
    ensures split { drop at bytes.now ≡ take result buf.new ++ drop (at + result) bytes.now }
    ensures end { result ≡ 0 → 0 < length buf.old → drop at bytes.now ≡ [] }
{
    let left = &bytes[at..];
    let n = most.min(buf.len().min(left.len()));
    buf[..n].copy_from_slice(&left[..n]);
    n
}
