//! What can be wrong with a line of a journal.
ghost use Rattle.std.specs.Prelude.{◌≡◌};
ghost use Rattle.ring_journal.specs.Fault.{code_of};

/// What is wrong with a line: a line that is too long is told so first, then one that is no JSON. Of the first line its
/// shape is judged next, then its version, then its names and its credit.
#[derive(Clone, Copy, PartialEq, Eq, Debug)]
pub enum Kind {
    /// The line is no JSON, or no UTF-8, as an empty line.
    NotJson = 70,
    /// The line is JSON, and no event: another word, another count of fields or another kind of field, or a name, a body
    /// or a number that is none.
    NotAnEvent,
    /// The first line isn't an object of `credit`, `members` and `v` alone, two whole numbers, texts and a whole number;
    /// or these aren't 1 to 64 different names and a credit; or there is no line.
    BadHeader,
    /// The first line gives another whole number than 1 for its version.
    UnknownVersion,
    /// The line has more than 2,000 bytes, without its line feed.
    LineTooLong,
}

impl Kind {
    /// The number by which users meet the kind: 70 to 74.
    pub fn code(&self) -> u32
        ensures { result ≡ code_of self.now }
    {
        *self as u32
    }
}
