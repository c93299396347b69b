//! Refusals.
ghost use Rattle.std.specs.Prelude.{◌≡◌, ◌∷◌, ◌++◌, [], IfOk, OnOk, codes};
ghost use Rattle.std.specs.Fmt.{decimal};
ghost use Rattle.ring_rules.specs.Event.{refusals_of};
ghost use Rattle.ring_report.specs.Lent.{lent_in};
ghost use Rattle.ring_script.specs.Vocabulary.{asked_phrase};
ghost use Rattle.ring_report.specs.Report.{further_text, phrase_text, refusal_line, refusal_lines};

use ring_names::{Name, OutOfMemory};
use ring_rules::{Client, Event};
use ring_script::{Further, Phrase};
use std::alloc::Global;

/// The refusals among these events, in their order, and lent: what `push_refusals` wants of a journal.
pub fn refusals_in<'a>(alloc: Global, events: &'a [Event]) -> Result<Vec<&'a Event>, OutOfMemory>
    ensures { IfOk result (λ all. lent_in all.items ≡ refusals_of events.now) }
{
    let mut all = Vec::new(alloc);
    for event in events {
        note_refusal(&mut all, event)?;
    }
    Ok(all)
}

/// One event more joins the refusals, where it is one.
fn note_refusal<'a>(all: &mut Vec<&'a Event>, event: &'a Event) -> Result<(), OutOfMemory>
    ensures { OnOk result (lent_in all.new.items ≡ lent_in all.old.items ++ refusals_of (event.now ∷ [])) }
{
    if event.is_refusal() {
        all.push(event)?;
    }
    Ok(())
}

/// All of these events, lent.
pub(crate) fn lent<'a>(alloc: Global, events: &'a [Event]) -> Result<Vec<&'a Event>, OutOfMemory>
    ensures { IfOk result (λ all. lent_in all.items ≡ events.now) }
{
    let mut all = Vec::new(alloc);
    for event in events {
        all.push(event)?;
    }
    Ok(all)
}

/// What the report says last of a member: a line for each of these that is a refusal of the member of this name.
pub fn push_refusals(
    alloc: Global,
    out: &mut Vec<u8>,
    refusals: &[&Event],
    name: &Name,
) -> Result<(), OutOfMemory>
    ensures { OnOk result (out.new.items ≡ out.old.items ++ refusal_lines name.now (lent_in refusals.now)) }
{
    for refusal in refusals {
        push_if_by(alloc, out, refusal, name)?;
    }
    Ok(())
}

/// What it says of one, where that is a refusal of the member of this name.
fn push_if_by(
    alloc: Global,
    out: &mut Vec<u8>,
    refusal: &Event,
    name: &Name,
) -> Result<(), OutOfMemory>
    ensures { OnOk result (out.new.items ≡ out.old.items ++ refusal_lines name.now (refusal.now ∷ [])) }
{
    if refusal.by().bytes() == name.bytes() {
        push_refusal(alloc, out, refusal)?;
    }
    Ok(())
}

fn push_refusal(alloc: Global, out: &mut Vec<u8>, refusal: &Event) -> Result<(), OutOfMemory>
    ensures { OnOk result (out.new.items ≡ out.old.items ++ refusal_line refusal.now) }
{
    match refusal {
        Event::Refuse { code, inner } => push_refused(alloc, out, *code, inner),
        _ => Ok(()),
    }
}

/// That this was refused with this number.
fn push_refused(
    alloc: Global,
    out: &mut Vec<u8>,
    code: u32,
    inner: &Client,
) -> Result<(), OutOfMemory>
    ensures { OnOk result (out.new.items ≡ out.old.items ++ refusal_line (Event.Refuse code inner.now)) }
{
    let number = format!(in alloc; "refused {code} ")?;
    out.extend_from_slice(number.as_bytes())?;
    push_asked(alloc, out, inner)?;
    out.extend_from_slice(b"\n")?;
    Ok(())
}

/// What a client asked for, in the words of a step file.
fn push_asked(alloc: Global, out: &mut Vec<u8>, inner: &Client) -> Result<(), OutOfMemory>
    ensures { OnOk result (out.new.items ≡ out.old.items ++ phrase_text (asked_phrase inner.now)) }
{
    let Phrase { word, by, further } = Phrase::of_client(inner)?;
    out.extend_from_slice(word.text())?;
    out.extend_from_slice(b" ")?;
    out.extend_from_slice(by.bytes())?;
    push_further(alloc, out, &further)
}

/// What stands behind the member's name.
fn push_further(alloc: Global, out: &mut Vec<u8>, further: &Further) -> Result<(), OutOfMemory>
    ensures { OnOk result (out.new.items ≡ out.old.items ++ further_text further.now) }
{
    match further {
        Further::Nothing => Ok(()),
        Further::Body(body) => push_word(out, body.bytes()),
        Further::Name(name) => push_word(out, name.bytes()),
        Further::Position(at) => push_number(alloc, out, at.0),
        Further::Version(version) => push_number(alloc, out, *version as u64),
    }
}

/// A word behind a space.
fn push_word(out: &mut Vec<u8>, word: &[u8]) -> Result<(), OutOfMemory>
    ensures { OnOk result (out.new.items ≡ out.old.items ++ codes " " ++ word.now) }
{
    out.extend_from_slice(b" ")?;
    out.extend_from_slice(word)?;
    Ok(())
}

/// A number behind a space.
fn push_number(alloc: Global, out: &mut Vec<u8>, number: u64) -> Result<(), OutOfMemory>
    ensures { OnOk result (out.new.items ≡ out.old.items ++ codes " " ++ decimal number) }
{
    let digits = format!(in alloc; "{number}")?;
    push_word(out, digits.as_bytes())
}
