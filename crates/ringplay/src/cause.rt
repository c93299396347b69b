//! Why a call ends, with which status, and the line that tells it.
ghost use Rattle.std.specs.Prelude.{◌≡◌, ◌++◌, IfOk, codes};
ghost use Rattle.std.specs.Fmt.{decimal};
ghost use Rattle.ring_report.specs.Report.{newline};
ghost use Rattle.ringplay.specs.Cause.{status_of, line_of};

use ring_names::OutOfMemory;
use ring_script::ScriptFault;
use std::alloc::Global;

/// Why the call ended as it did.
#[derive(Clone, Copy, PartialEq, Eq, Debug)]
pub enum Cause {
    /// The input was read to its end, and the command's text was written whole.
    Done,
    /// The words are none that the command takes.
    Usage,
    /// The input is no script, or no step file: its first bad line, and the number of what is wrong with it, 50 to 62.
    Script { line: u32, kind: u32 },
    /// The source failed.
    ReadFault,
    /// The sink failed.
    WriteFault,
    /// Memory was wanted and not found.
    OutOfMemory,
    /// The input has more bytes or more lines than are taken.
    TooLarge,
    /// The journal is that of no run: the first line whose event isn't enabled behind those before it, and the number of
    /// its refusal.
    Illegal { line: u32, code: u32 },
    /// The journal can't be read: its first bad line, and the number of what is wrong with it, 70 to 74.
    Unreadable { line: u32, kind: u32 },
}

impl Cause {
    /// The status with which the program ends.
    pub fn status(&self) -> u8
        ensures { result ≡ status_of self.now }
    {
        match self {
            Cause::Done => 0,
            Cause::Usage => 1,
            Cause::Script { .. } => 2,
            Cause::ReadFault => 3,
            Cause::WriteFault => 4,
            Cause::OutOfMemory => 5,
            Cause::TooLarge => 6,
            Cause::Illegal { .. } => 7,
            Cause::Unreadable { .. } => 8,
        }
    }

    /// The line that is written where nothing was done: empty where none is.
    pub(crate) fn line(&self, alloc: Global) -> Result<Vec<u8>, OutOfMemory>
        ensures { IfOk result (λ line. line.items ≡ line_of self.now) }
    {
        match self {
            Cause::Usage => Ok(Vec::from_slice(alloc, b"usage\n")?),
            Cause::TooLarge => Ok(Vec::from_slice(alloc, b"too large\n")?),
            Cause::Script { line, kind } => numbered(alloc, "script", *line, *kind),
            Cause::Illegal { line, code } => numbered(alloc, "illegal", *line, *code),
            Cause::Unreadable { line, kind } => numbered(alloc, "unreadable", *line, *kind),
            Cause::Done | Cause::ReadFault | Cause::WriteFault | Cause::OutOfMemory => {
                Ok(Vec::new(alloc))
            }
        }
    }
}

/// A word with the number of a line and a further number.
fn numbered(alloc: Global, word: &str, line: u32, number: u32) -> Result<Vec<u8>, OutOfMemory>
    ensures { IfOk result (λ text. text.items
        ≡ word.now ++ codes " " ++ decimal line ++ codes " " ++ decimal number ++ newline) }
{
    let text = format!(in alloc; "{word} {line} {number}\n")?;
    Ok(Vec::from_slice(alloc, text.as_bytes())?)
}

impl From<OutOfMemory> for Cause {
    ghost use Rattle.ringplay.specs.declared.cause.Cause.{Cause};

    ghost from_gives = { λ _ cause. cause ≡ Cause.OutOfMemory };

    fn from(_error: OutOfMemory) -> Cause {
        Cause::OutOfMemory
    }
}

impl From<ScriptFault> for Cause {
    ghost use Rattle.ringplay.specs.Cause.{cause_of};

    ghost from_gives = { λ fault cause. cause ≡ cause_of fault };

    fn from(fault: ScriptFault) -> Cause {
        match fault {
            ScriptFault::At { line, kind } => Cause::Script { line, kind },
            ScriptFault::OutOfMemory => Cause::OutOfMemory,
        }
    }
}
