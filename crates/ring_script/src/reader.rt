//! A text, line by line.
ghost use Rattle.std.specs.Prelude.{◌≡◌, ℕ, List, ◌∷◌, ◌++◌, [], Some, None, IfOk, OnOk, IfErr, length, take};
ghost use Rattle.std.specs.Prelude.{◌<◌};
ghost use Rattle.std.specs.Option.{option_to_list};
ghost use Rattle.ring_script.specs.Words.{first_word, behind_word};
ghost use Rattle.ring_script.specs.Fault.{Tells};
ghost use Rattle.ring_script.specs.Line.{head_in, fault_by, Says};
ghost use Rattle.ring_script.specs.Reading.{fault_behind, next_of, known_of};
ghost use Rattle.ring_script.specs.Standing.{HasRead, used_line};

use crate::fault::{Kind, LineFault};
use crate::line::{Next, Said, is_skipped_line, judge_text, read_said};
use crate::statement::Statement;
use crate::text::Text;
use ring_names::{CreditSpec, Items, Name};
use std::alloc::Global;

/// What is read of a text so far.
#[derive(Drop)]
pub(crate) struct Reader<S> {
    next: Next,
    /// The names that a line may use: those of the members, and behind them those that joined.
    known: Vec<Name>,
    /// How many of them are the members'.
    opening: usize,
    credit: CreditSpec,
    lines: Vec<(u32, S)>,
}

impl<S: Statement> Reader<S> {
    /// Nothing is read. A text that gives no credit has 8 4.
    pub(crate) fn opening(alloc: Global) -> Reader<S>
        ensures { HasRead S.grammar S.says [] result }
    {
        let Some(credit) = CreditSpec::new(8, 4) else {
            unreachable!()
        };
        Reader {
            next: Next::Opening,
            known: Vec::new(alloc),
            opening: 0,
            credit,
            lines: Vec::new(alloc),
        }
    }

    /// Reads the next line, which has this number.
    pub(crate) fn read(&mut self, alloc: Global, number: u32, line: &[u8]) -> Result<(), LineFault>
        ensures fault { (used : List (ℕ × List ℕ)) → HasRead S.grammar S.says used self.old
            → Tells (fault_behind S.grammar used line.now) result }
        ensures read { (used : List (ℕ × List ℕ)) → HasRead S.grammar S.says used self.old
            → OnOk result (HasRead S.grammar S.says (used ++ used_line number line.now) self.new) }
    {
        judge_text(line)?;
        if is_skipped_line(line) {
            return Ok(());
        }
        let said = read_said(alloc, self.next, &self.known, line)?;
        self.take(number, said)
    }

    /// Takes what the line of this number says.
    fn take(&mut self, number: u32, said: Said<S>) -> Result<(), LineFault>
        ensures taken { (used : List (ℕ × List ℕ)) → (line : List ℕ) → HasRead S.grammar S.says used self.old
            → fault_by S.grammar (next_of used) (head_in line) (known_of S.grammar used) (first_word line)
            (behind_word line) ≡ None
            → Says S.says (first_word line) (behind_word line) said
            → OnOk result (HasRead S.grammar S.says (used ++ (number, line) ∷ []) self.new) }
        ensures full { IfErr result (λ fault. fault ≡ LineFault.OutOfMemory) }
    {
        match said {
            Said::Members(members) => {
                self.opening = members.len();
                self.known = members;
                self.next = Next::Credit;
                Ok(())
            }
            Said::Credit(credit) => {
                self.credit = credit;
                self.next = Next::Further;
                Ok(())
            }
            Said::Statement(statement) => {
                self.next = Next::Further;
                push_name(&mut self.known, statement.joined())?;
                push_line(&mut self.lines, number, statement)
            }
        }
    }

    /// The text, where its members are named.
    pub(crate) fn finish(self) -> Result<Text<S>, Kind>
        ensures some { (used : List (ℕ × List ℕ)) → HasRead S.grammar S.says used self
            → OnOk result (0 < length used) }
        ensures members { IfOk result (λ text. text.members ≡ take self.opening self.known.items) }
        ensures credit { IfOk result (λ text. text.credit ≡ self.credit) }
        ensures lines { IfOk result (λ text. text.lines ≡ self.lines.items) }
        ensures none { (used : List (ℕ × List ℕ)) → HasRead S.grammar S.says used self
            → IfErr result (λ kind. (used ≡ []) × (kind ≡ Kind.NoMembers)) }
    {
        let Reader {
            next,
            known,
            opening,
            credit,
            lines,
        } = self;
        match next {
            Next::Opening => Err(Kind::NoMembers),
            Next::Credit | Next::Further => Ok(Text {
                members: Items::from_vec(first_names(known, opening)),
                credit,
                lines: Items::from_vec(lines),
            }),
        }
    }
}

/// So many names from the front on.
fn first_names(names: Vec<Name>, count: usize) -> Vec<Name>
    ensures { result.items ≡ take count names.items }
{
    let mut names = names;
    names.truncate(count);
    names
}

/// A name more, if there is one.
fn push_name(names: &mut Vec<Name>, name: Option<Name>) -> Result<(), LineFault>
    ensures ok { OnOk result (names.new.items ≡ names.old.items ++ option_to_list name) }
    ensures full { IfErr result (λ fault. fault ≡ LineFault.OutOfMemory) }
{
    if let Some(name) = name {
        names.push(name)?;
    }
    Ok(())
}

/// A statement more, behind the number of its line.
fn push_line<S: Drop>(lines: &mut Vec<(u32, S)>, number: u32, statement: S) -> Result<(), LineFault>
    ensures ok { OnOk result (lines.new.items ≡ lines.old.items ++ (number, statement) ∷ []) }
    ensures full { IfErr result (λ fault. fault ≡ LineFault.OutOfMemory) }
{
    lines.push((number, statement))?;
    Ok(())
}
