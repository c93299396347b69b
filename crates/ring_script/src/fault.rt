//! What can be wrong with a line.
ghost use Rattle.std.specs.Prelude.{◌≡◌};
ghost use Rattle.ring_script.specs.declared.fault.LineFault.TheVariants.{Wrong};
ghost use Rattle.ring_script.specs.Fault.{code_of, told_at};

use ring_names::OutOfMemory;
use std::alloc::AllocFailed;
use thiserror::Error;

/// What is wrong with a line.
#[derive(Clone, Copy, PartialEq, Eq, Debug)]
pub enum Kind {
    /// A byte is neither from the space to the tilde nor the line feed.
    NotText = 50,
    /// The line has more than 2,000 bytes.
    LineTooLong,
    /// The first word is no command.
    UnknownCommand,
    /// There are fewer words than the command has.
    MissingWord,
    /// There are more words than the command has.
    ExtraWord,
    /// A word is no number or one above its limit, or the two numbers are no credit.
    BadNumber,
    /// A word is no name.
    BadName,
    /// The name is neither a member's nor that of one who joined by an earlier line.
    UnknownName,
    /// The name stands before.
    NameTaken,
    /// The name is the 65th.
    TooManyMembers,
    /// The body has more than 256 bytes.
    BodyTooLong,
    /// The first used line doesn't name the members, or there is none.
    NoMembers,
    /// The members are named again, or a credit is given that doesn't stand directly behind them.
    Misplaced,
}

impl Kind {
    /// The number by which users meet the kind: 50 to 62.
    pub fn code(&self) -> u32
        ensures { result ≡ code_of self.now }
    {
        *self as u32
    }
}

/// Why a text is read as no script, or as no step file.
#[derive(Clone, Copy, PartialEq, Eq, Debug, Error)]
pub enum ScriptFault {
    /// The first bad line, from 1, and the number of its first fault. Where no line is used, this is the
    /// line behind the last.
    #[error("line {line}: fault {kind}")]
    At { line: u32, kind: u32 },
    /// Memory for what it says was not found.
    #[error("out of memory")]
    OutOfMemory,
}

impl From<OutOfMemory> for ScriptFault {
    ghost use Rattle.ring_script.specs.declared.fault.ScriptFault.{ScriptFault};

    ghost from_gives = { λ _ fault. fault ≡ ScriptFault.OutOfMemory };

    fn from(_fault: OutOfMemory) -> ScriptFault {
        ScriptFault::OutOfMemory
    }
}

/// Why a line isn't read.
#[derive(Clone, Copy, PartialEq, Eq, Debug)]
pub(crate) enum LineFault {
    /// The line is wrong.
    Wrong(Kind),
    /// Memory was wanted and not found.
    OutOfMemory,
}

impl<T: Drop> From<AllocFailed<T>> for LineFault {
    ghost use Rattle.ring_script.specs.declared.fault.LineFault.{LineFault};

    ghost from_gives = { λ _ fault. fault ≡ LineFault.OutOfMemory };

    fn from(_failed: AllocFailed<T>) -> LineFault {
        LineFault::OutOfMemory
    }
}

impl From<Kind> for LineFault {
    ghost from_gives = { λ kind fault. fault ≡ Wrong kind };

    fn from(kind: Kind) -> LineFault {
        LineFault::Wrong(kind)
    }
}

impl LineFault {
    /// The fault of the line of this number.
    pub(crate) fn at(self, line: u32) -> ScriptFault
        ensures { result ≡ told_at line self }
    {
        match self {
            LineFault::Wrong(kind) => ScriptFault::At {
                line,
                kind: kind.code(),
            },
            LineFault::OutOfMemory => ScriptFault::OutOfMemory,
        }
    }
}
