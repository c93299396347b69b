//! Checking a journal.
ghost use Rattle.std.specs.Prelude.{length, ◌≤◌};
ghost use Rattle.ring_script.specs.Words.{lines_of};
ghost use Rattle.ring_words.specs.declared.asked.Asked.{Asked};
ghost use Rattle.ringplay.specs.Call.{most_lines};
ghost use Rattle.ringplay.specs.Due.{DoesAsAsked};

use crate::cause::Cause;
use crate::play::Played;
use ring_journal::{Verdict, a_legal_journal_is_a_run, check};
use ring_report::report;
use std::alloc::Global;

/// Judges the bytes as a journal: of a legal one the events and the report of the state that they leave, and of another
/// the first line that is wrong.
pub(crate) fn judge(alloc: Global, bytes: Vec<u8>) -> Result<Played, Cause>
    requires { length (lines_of bytes.items) ≤ most_lines Asked.Check }
    ensures { DoesAsAsked Asked.Check bytes.items result }
{
    a_legal_journal_is_a_run();
    let verdict = check(alloc, &bytes)?;
    drop(bytes);
    match verdict {
        Verdict::Legal { world, events } => {
            let text = report(alloc, &world)?;
            Ok(Played {
                journal: events.into_vec(),
                text,
                cluster: None,
            })
        }
        Verdict::Illegal { line, reason } => Err(Cause::Illegal {
            line,
            code: reason.code(),
        }),
        Verdict::Unreadable { line, kind } => Err(Cause::Unreadable { line, kind }),
    }
}
