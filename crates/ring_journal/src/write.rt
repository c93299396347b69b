//! Journals as text.
ghost use Rattle.std.specs.Prelude.{◌≡◌, ◌++◌, ◌∷◌, [], false, All, map, IfOk, OnOk};
ghost use Rattle.serde_json.specs.Data.{string};
ghost use Rattle.serde_json.specs.View.{view};
ghost use Rattle.serde_json.specs.Written.{compact_text, has_float};
ghost use Rattle.group_view.specs.Change.{AreOpeningNames};
ghost use Rattle.ring_journal.specs.declared.verdict.Verdict.{Verdict};
ghost use Rattle.ring_rules.specs.Step.{opening};
ghost use Rattle.ring_copies.specs.Runs.{IsRun, without_copies};
ghost use Rattle.ring_journal.specs.Text.{opened, IsVerdictOf};
ghost use Rattle.ring_journal.specs.Played.{played, left_by, IsWritableFurther, IsWritable};
ghost use Rattle.ring_names.specs.Name.{IsName};
ghost use Rattle.ring_names.specs.Body.{IsBody};
ghost use Rattle.ring_script.specs.Vocabulary.{text_of};
ghost use Rattle.ring_journal.specs.Written.{fields, further_fields, front_of, data_of, header_data, journal_text};
ghost use Rattle.ring_journal.specs.Written.{IsFitNumber, IsWithin};

use ring_names::{Body, CreditSpec, Name, OutOfMemory};
use ring_rules::Event;
use ring_script::{Further, Phrase, Word};
use serde_json::{Value, json};
use std::alloc::Global;

/// The name as text.
fn name_text(name: &Name) -> &str
    ensures text { result.now ≡ name.now }
    ensures grammar { IsName name.now }
{
    match str::from_utf8(name.bytes()) {
        Ok(text) => text,
        Err(_) => unreachable!(),
    }
}

/// The body as text.
fn body_text(body: &Body) -> &str
    ensures text { result.now ≡ body.now }
    ensures grammar { IsBody body.now }
{
    match str::from_utf8(body.bytes()) {
        Ok(text) => text,
        Err(_) => unreachable!(),
    }
}

/// The word as text.
fn word_text(word: Word) -> &'static str
    ensures { result.now ≡ text_of word }
{
    match str::from_utf8(word.text()) {
        Ok(text) => text,
        Err(_) => unreachable!(),
    }
}

/// A text joins the fields.
fn push_text(alloc: Global, fields: &mut Vec<Value>, text: &str) -> Result<(), OutOfMemory>
    ensures { OnOk result (map view fields.new.items ≡ map view fields.old.items ++ string text.now ∷ []) }
{
    fields.push(Value::try_from_str(alloc, text)?)?;
    Ok(())
}

/// What stands in front of the event's phrase joins the fields: of a refusal its word and its number.
fn push_front(alloc: Global, fields: &mut Vec<Value>, event: &Event) -> Result<(), OutOfMemory>
    ensures { OnOk result (map view fields.new.items ≡ map view fields.old.items ++ front_of event.now) }
{
    if let Event::Refuse { code, inner: _ } = event {
        push_text(alloc, fields, "refuse")?;
        fields.push(Value::from(*code))?;
    }
    Ok(())
}

/// What stands behind the member's name joins them.
fn push_further(
    alloc: Global,
    fields: &mut Vec<Value>,
    further: &Further,
) -> Result<(), OutOfMemory>
    requires { IsFitNumber further.now }
    ensures fields { OnOk result (map view fields.new.items ≡ map view fields.old.items ++ further_fields further.now) }
    ensures fit { OnOk result (IsWritableFurther further.now) }
{
    match further {
        Further::Nothing => {}
        Further::Body(body) => push_text(alloc, fields, body_text(body))?,
        Further::Name(name) => push_text(alloc, fields, name_text(name))?,
        Further::Position(at) => fields.push(Value::from(at.0))?,
        Further::Version(version) => fields.push(Value::from(*version))?,
    }
    Ok(())
}

/// The event as JSON.
fn value_of(alloc: Global, event: &Event) -> Result<Value, OutOfMemory>
    requires { IsWithin event.now }
    ensures value { IfOk result (λ value. view value ≡ data_of event.now) }
    ensures writable { OnOk result (IsWritable event.now) }
{
    let Phrase { word, by, further } = Phrase::of_event(event)?;
    let mut fields = Vec::new(alloc);
    push_front(alloc, &mut fields, event)?;
    push_text(alloc, &mut fields, word_text(word))?;
    push_text(alloc, &mut fields, name_text(&by))?;
    push_further(alloc, &mut fields, &further)?;
    Ok(Value::Array(fields))
}

/// The names as JSON.
fn names_value(alloc: Global, names: &[Name]) -> Result<Value, OutOfMemory>
    ensures value { IfOk result (λ value. view value ≡ fields (map string names.now)) }
    ensures grammar { OnOk result (All IsName names.now) }
{
    let mut values = Vec::with_capacity(alloc, names.len())?;
    for name in names {
        values.push(Value::try_from_str(alloc, name_text(name))?)?;
    }
    Ok(Value::Array(values))
}

/// The first line as JSON.
fn header_value(alloc: Global, members: &[Name], credit: CreditSpec) -> Result<Value, OutOfMemory>
    ensures value { IfOk result (λ value. view value ≡ header_data members.now credit) }
    ensures grammar { OnOk result (All IsName members.now) }
{
    let names = names_value(alloc, members)?;
    Ok(json!(in alloc; {"credit": [credit.initial, credit.more], "members": names, "v": 1u32})?)
}

/// The line of a value joins the others.
fn push_line(alloc: Global, out: &mut Vec<u8>, value: &Value) -> Result<(), OutOfMemory>
    requires { has_float (view value.now) ≡ false }
    ensures { OnOk result (out.new.items ≡ out.old.items ++ (compact_text (view value.now) ++ 10 ∷ [])) }
{
    let line = value.to_vec(alloc)?;
    out.extend_from_slice(&line)?;
    out.push(b'\n')?;
    Ok(())
}

/// The journal of these events, of a ring that opens with these members, 1 to 64 different names, and this credit: each
/// line is compact JSON and ends with a line feed. Positions and versions have to be from 1 to 1,000,000, and numbers of
/// refusals from 1 to 99. The events need be no run. Want of memory is the only error.
pub fn write_journal(
    alloc: Global,
    members: &[Name],
    credit: CreditSpec,
    events: &[Event],
) -> Result<Vec<u8>, OutOfMemory>
    requires members { AreOpeningNames members.now }
    requires within { All IsWithin events.now }
    ensures text { IfOk result (λ text. text.items ≡ journal_text members.now credit events.now) }

    // What is written is read back: it is judged by its events alone.
    ensures read_back { IfOk result (λ text. (verdict : Verdict) → IsVerdictOf text.items verdict
        → verdict ≡ played (opened credit members.now) [] 2 events.now) }

    // That of a run is legal, with the same events and the world that they leave.
    ensures legal { IfOk result (λ text. (verdict : Verdict) → IsVerdictOf text.items verdict
        → IsRun (without_copies (opening credit members.now)) events.now
        → verdict ≡ Verdict.Legal (left_by (opened credit members.now) events.now) events.now) }
{
    let mut out = Vec::new(alloc);
    push_line(alloc, &mut out, &header_value(alloc, members, credit)?)?;
    for event in events {
        push_line(alloc, &mut out, &value_of(alloc, event)?)?;
    }
    Ok(out)
}
