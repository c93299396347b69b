//! A whole journal, read and judged line by line.
ghost use Rattle.std.specs.Prelude.{◌≡◌, IfOk, [], Ok, Err};
ghost use Rattle.ring_script.specs.Words.{lines_of};
ghost use Rattle.group_view.specs.Change.{AreOpeningNames};
ghost use Rattle.ring_journal.specs.Fault.{code_of};
ghost use Rattle.ring_journal.specs.Text.{judged, opened, IsVerdictOf};

use crate::fault::Kind;
use crate::header::Header;
use crate::line::{read_event, read_header};
use crate::verdict::Verdict;
use ring_names::{Items, OutOfMemory};
use ring_rules::Refused;
use ring_script::next_line;
use ring_world::World;
use std::alloc::Global;

/// Reads a journal and judges it line by line, each for its text and then for its event, before the next. It is
/// `Unreadable` at the first line that can't be read, also where there is no line; `Illegal` at the first line whose
/// event isn't enabled behind those before it; and `Legal` where no line is either. Whatever the bytes are, one of these
/// alone is right. Want of memory is the only error; a journal of 2^32 - 2 events or more is answered so too.
pub fn check(alloc: Global, bytes: &[u8]) -> Result<Verdict, OutOfMemory>
    ensures { IfOk result (IsVerdictOf bytes.now) }
{
    if bytes.is_empty() {
        return Ok(unreadable(1, Kind::BadHeader));
    }
    let (line, rest) = next_line(bytes);
    match read_header(alloc, line)? {
        Ok(header) => judge(alloc, header, rest),
        Err(kind) => Ok(unreadable(1, kind)),
    }
}

/// The verdict on a line that can't be read.
fn unreadable(line: u32, kind: Kind) -> Verdict
    ensures { result ≡ Verdict.Unreadable line (code_of kind) }
{
    Verdict::Unreadable {
        line,
        kind: kind.code(),
    }
}

/// Judges the lines behind the first.
fn judge(alloc: Global, header: Header, bytes: &[u8]) -> Result<Verdict, OutOfMemory>
    requires { AreOpeningNames header.members }
    ensures { IfOk result (λ verdict. verdict ≡ judged (opened header.credit header.members) [] 2 (lines_of bytes.now)) }
{
    let mut world = World::opening(alloc, header.members.as_slice(), header.credit)?;
    let mut events = Vec::new(alloc);
    let mut rest = bytes;
    let mut number = 2;
    'lines: while !rest.is_empty() {
        let (line, behind) = next_line(rest);
        let event = match read_event(alloc, line)? {
            Ok(event) => event,
            Err(kind) => return Ok(unreadable(number, kind)),
        };
        match world.apply(&event) {
            Ok(()) => {}
            Err(Refused::NotEnabled(reason)) => {
                return Ok(Verdict::Illegal {
                    line: number,
                    reason,
                });
            }
            Err(Refused::OutOfMemory) => return Err(OutOfMemory),
        }
        events.push(event)?;
        number = match number.checked_add(1) {
            Some(next) => next,
            None => return Err(OutOfMemory),
        };
        rest = behind;
    }
    Ok(Verdict::Legal {
        world,
        events: Items::from_vec(events),
    })
}
