//! The journal behind what is told.
ghost use Rattle.std.specs.Prelude.{◌≡◌, ◌++◌, All, IfOk};
ghost use Rattle.group_view.specs.Change.{AreOpeningNames};
ghost use Rattle.ring_rules.specs.Step.{opening};
ghost use Rattle.ring_copies.specs.Runs.{IsRun, without_copies};
ghost use Rattle.ring_journal.specs.Written.{IsWithin};
ghost use Rattle.ringplay.specs.Performed.{Tells};

use ring_journal::write_journal;
use ring_names::{CreditSpec, Name, OutOfMemory};
use ring_rules::Event;
use std::alloc::Global;

/// The text, and behind it the journal of these events, where it is to be kept, of a ring that opened with these members
/// and this credit.
pub(crate) fn with_journal(
    alloc: Global,
    kept: bool,
    members: &[Name],
    credit: CreditSpec,
    events: &[Event],
    text: Vec<u8>,
) -> Result<Vec<u8>, OutOfMemory>
    requires members { AreOpeningNames members.now }
    requires within { All IsWithin events.now }
    requires run { IsRun (without_copies (opening credit members.now)) events.now }
    ensures { IfOk result (λ whole. Tells kept credit members.now events.now (λ first. first ≡ text.items) whole.items) }
{
    if !kept {
        return Ok(text);
    }
    let mut whole = text;
    let journal = write_journal(alloc, members, credit, events)?;
    whole.extend_from_slice(&journal)?;
    Ok(whole)
}
