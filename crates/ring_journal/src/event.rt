//! Events as JSON.
ghost use Rattle.std.specs.Prelude.{◌≡◌, IfOk};
ghost use Rattle.serde_json.specs.View.{view};
ghost use Rattle.ring_journal.specs.Event.{fields_of as fields_in, further_at as further_in, phrase_by as phrase_in};
ghost use Rattle.ring_journal.specs.Event.{phrase_at as phrase_that, refusal_in, event_in};

use crate::fields::{body_at, count, name_at, number_at, position_at, text_at};
use ring_names::OutOfMemory;
use ring_rules::Event;
use ring_script::{Further, MOST_CODE, MOST_VERSION, Phrase, Shape, Word};
use serde_json::Value;
use std::alloc::Global;

/// The event that the value is, if it is one: its first field is the word of a phrase, or `refuse`.
pub(crate) fn event_of(alloc: Global, value: &Value) -> Result<Option<Event>, OutOfMemory>
    ensures { IfOk result (λ event. event ≡ event_in (view value.now)) }
{
    let Some(word) = text_at(value, 0) else {
        return Ok(None);
    };
    if word.as_bytes() == b"refuse".as_slice() {
        return refusal_of(alloc, value);
    }
    match phrase_at(alloc, value, 0)? {
        Some(phrase) => Ok(phrase.event()),
        None => Ok(None),
    }
}

/// The refusal that the value is, if it is one: behind its word stand its number, and the phrase of what was asked for.
fn refusal_of(alloc: Global, value: &Value) -> Result<Option<Event>, OutOfMemory>
    ensures { IfOk result (λ event. event ≡ refusal_in (view value.now)) }
{
    let Some(code) = number_at(value, MOST_CODE, 1) else {
        return Ok(None);
    };
    let Some(phrase) = phrase_at(alloc, value, 2)? else {
        return Ok(None);
    };
    match phrase.client() {
        Some(inner) => Ok(Some(Event::Refuse { code, inner })),
        None => Ok(None),
    }
}

/// The phrase that begins behind so many fields, where no field stands behind it.
fn phrase_at(alloc: Global, value: &Value, start: u8) -> Result<Option<Phrase>, OutOfMemory>
    ensures { IfOk result (λ phrase. phrase ≡ phrase_that start (view value.now)) }
{
    let Some(text) = text_at(value, start as usize) else {
        return Ok(None);
    };
    match Word::of(text.as_bytes()) {
        Some(word) => phrase_by(alloc, value, start, word, word.shape()),
        None => Ok(None),
    }
}

/// The phrase that a word of this shape begins there.
fn phrase_by(
    alloc: Global,
    value: &Value,
    start: u8,
    word: Word,
    shape: Shape,
) -> Result<Option<Phrase>, OutOfMemory>
    ensures { IfOk result (λ phrase. phrase ≡ phrase_in start (view value.now) word shape) }
{
    let place = start as usize;
    if count(value) != place + fields_of(shape) as usize {
        return Ok(None);
    }
    let Some(by) = name_at(value, place + 1) else {
        return Ok(None);
    };
    let Some(further) = further_at(alloc, value, shape, place + 2)? else {
        return Ok(None);
    };
    Ok(Some(Phrase { word, by, further }))
}

/// How many fields a phrase has whose name is followed by this.
fn fields_of(shape: Shape) -> u8
    ensures { result ≡ fields_in shape }
{
    match shape {
        Shape::Nothing => 2,
        _ => 3,
    }
}

/// What stands at a place behind the member's name.
fn further_at(
    alloc: Global,
    value: &Value,
    shape: Shape,
    place: usize,
) -> Result<Option<Further>, OutOfMemory>
    ensures { IfOk result (λ further. further ≡ further_in shape place (view value.now)) }
{
    match shape {
        Shape::Nothing => Ok(Some(Further::Nothing)),
        Shape::Body => Ok(body_at(alloc, value, place)?.map(Further::Body)),
        Shape::Name | Shape::Newcomer => Ok(name_at(value, place).map(Further::Name)),
        Shape::Position => Ok(position_at(value, place).map(Further::Position)),
        Shape::Version => Ok(number_at(value, MOST_VERSION, place).map(Further::Version)),
    }
}
