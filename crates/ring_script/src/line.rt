//! One line of a script or a step file.
ghost use Rattle.std.specs.Prelude.{◌≡◌, ◌==◌, true, IfOk};
ghost use Rattle.std.specs.List.{list_all, slice_index};
ghost use Rattle.ring_script.specs.Words.{is_text_byte, is_blank, first_word, behind_word};
ghost use Rattle.ring_script.specs.Place.{left_in};
ghost use Rattle.ring_script.specs.Fault.{Tells};
ghost use Rattle.ring_script.specs.Line.{is_skipped, head_of, head_in, text_fault, fault_by, Says};

use crate::arguments::{read_credit, read_members};
use crate::fault::{Kind, LineFault};
use crate::statement::Statement;
use crate::words::{Words, by_word};
use ring_names::{CreditSpec, Name};
use std::alloc::Global;

/// What the first word of a line begins.
#[derive(Clone, Copy, PartialEq, Eq, Debug)]
pub(crate) enum Head {
    /// The names of the members.
    Members,
    /// The credit of each link.
    Credit,
    /// A statement, if the word is one of these.
    Statement,
}

/// What the next used line may be.
#[derive(Clone, Copy, PartialEq, Eq, Debug)]
pub(crate) enum Next {
    /// It names the members.
    Opening,
    /// It gives a credit, or is a statement.
    Credit,
    /// It is a statement.
    Further,
}

/// What a line says.
#[derive(Drop, Debug)]
pub(crate) enum Said<S> {
    /// These are the members.
    Members(Vec<Name>),
    /// Each link has this credit.
    Credit(CreditSpec),
    /// A command, or an event.
    Statement(S),
}

impl Head {
    /// What this word begins.
    fn of(word: &[u8]) -> Head
        ensures { result ≡ head_of word.now }
    {
        by_word!(word;
            b"members" => Head::Members,
            b"credit" => Head::Credit,
            _ => Head::Statement
        )
    }
}

/// Judges the bytes of a line, before its words are read.
pub(crate) fn judge_text(line: &[u8]) -> Result<(), LineFault>
    ensures { Tells (text_fault line.now) result }
{
    if line.len() > 2000 {
        return Err(LineFault::Wrong(Kind::LineTooLong));
    }
    if !is_all_text(line) {
        return Err(LineFault::Wrong(Kind::NotText));
    }
    Ok(())
}

/// Whether each byte stands from the space to the tilde. All are judged, since that is faster than to stop at the first
/// that doesn't.
fn is_all_text(bytes: &[u8]) -> bool
    ensures { result ≡ list_all is_text_byte bytes.now }
{
    bytes
        .iter()
        .fold(true, |all, byte| all & (b' ' <= *byte) & (*byte <= b'~'))
}

/// Whether the line is passed over: it has no word, or is a comment.
pub(crate) fn is_skipped_line(line: &[u8]) -> bool
    ensures { result ≡ is_skipped line.now }
{
    is_blank_line(line) || is_comment(line)
}

/// Whether the line has no byte but spaces.
fn is_blank_line(line: &[u8]) -> bool
    ensures { result ≡ is_blank line.now }
{
    line.iter().all(|byte| *byte == b' ')
}

/// Whether the line is a comment.
fn is_comment(line: &[u8]) -> bool
    ensures { result ≡ (slice_index line.now 0 == 35) }
{
    match line.first() {
        Some(first) => *first == b'#',
        None => false,
    }
}

/// What a line says that isn't skipped, behind those that make these names known.
pub(crate) fn read_said<S: Statement>(
    alloc: Global,
    next: Next,
    known: &[Name],
    line: &[u8],
) -> Result<Said<S>, LineFault>
    requires text { list_all is_text_byte line.now ≡ true }
    ensures fault { Tells (fault_by S.grammar next (head_in line.now) known.now (first_word line.now)
        (behind_word line.now)) result }
    ensures says { IfOk result (Says S.says (first_word line.now) (behind_word line.now)) }
{
    let mut words = Words::of(line);
    let word = words.first();
    read_by(alloc, next, known, word, words)
}

/// What a line says that has this first word and this rest.
fn read_by<S: Statement>(
    alloc: Global,
    next: Next,
    known: &[Name],
    word: &[u8],
    rest: Words,
) -> Result<Said<S>, LineFault>
    requires text { list_all is_text_byte (left_in rest) ≡ true }
    ensures fault { Tells (fault_by S.grammar next (head_of word.now) known.now word.now
        (left_in rest.entry)) result }
    ensures says { IfOk result (Says S.says word.now (left_in rest.entry)) }
{
    match (next, Head::of(word)) {
        (Next::Opening, Head::Members) => Ok(Said::Members(read_members(alloc, rest)?)),
        (Next::Opening, Head::Credit | Head::Statement) => Err(LineFault::Wrong(Kind::NoMembers)),
        (Next::Credit, Head::Credit) => Ok(Said::Credit(read_credit(rest)?)),
        (Next::Credit | Next::Further, Head::Statement) => Ok(Said::Statement(S::read(
            alloc, known, word, rest,
        )?)),
        (Next::Credit | Next::Further, Head::Members) => Err(LineFault::Wrong(Kind::Misplaced)),
        (Next::Further, Head::Credit) => Err(LineFault::Wrong(Kind::Misplaced)),
    }
}
