//! The fields of a JSON array.
ghost use Rattle.std.specs.Prelude.{◌≡◌, IfOk, option_map};
ghost use Rattle.serde_json.specs.View.{view};
ghost use Rattle.ring_journal.specs.Fields.{count as count_of, text_at as text_in, name_at as name_in, body_at as body_in};
ghost use Rattle.ring_journal.specs.Fields.{number_at as number_in, position_at as position_in};

use ring_names::{Body, BodyFault, Name, OutOfMemory, Position};
use ring_script::MOST_POSITION;
use serde_json::Value;
use std::alloc::Global;

/// How many fields the value has; one that is no array has none.
pub(crate) fn count(value: &Value) -> usize
    ensures { result ≡ count_of (view value.now) }
{
    match value.as_array() {
        Some(fields) => fields.as_slice().len(),
        None => 0,
    }
}

/// The text at a place.
pub(crate) fn text_at(value: &Value, place: usize) -> Option<&str>
    ensures { option_map (λ text. text.now) result ≡ text_in place (view value.now) }
{
    value.get(place)?.as_str()
}

/// The name at a place.
pub(crate) fn name_at(value: &Value, place: usize) -> Option<Name>
    ensures { result ≡ name_in place (view value.now) }
{
    Name::read(text_at(value, place)?.as_bytes()).ok()
}

/// The body at a place.
pub(crate) fn body_at(
    alloc: Global,
    value: &Value,
    place: usize,
) -> Result<Option<Body>, OutOfMemory>
    ensures { IfOk result (λ body. body ≡ body_in place (view value.now)) }
{
    let Some(text) = text_at(value, place) else {
        return Ok(None);
    };
    match Body::read(alloc, text.as_bytes()) {
        Ok(body) => Ok(Some(body)),
        Err(BodyFault::TooLong | BodyFault::BadByte { .. }) => Ok(None),
        Err(BodyFault::OutOfMemory) => Err(OutOfMemory),
    }
}

/// The number at a place, from 1 up to a limit.
pub(crate) fn number_at(value: &Value, most: u32, place: usize) -> Option<u32>
    ensures { result ≡ number_in most place (view value.now) }
{
    let number = value.get(place)?.as_u64()?;
    if number >= 1 && number <= most as u64 {
        Some(number as u32)
    } else {
        None
    }
}

/// The position at a place.
pub(crate) fn position_at(value: &Value, place: usize) -> Option<Position>
    ensures { result ≡ position_in place (view value.now) }
{
    let number = number_at(value, MOST_POSITION, place)?;
    Some(Position(number as u64))
}
