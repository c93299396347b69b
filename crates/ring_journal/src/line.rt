//! One line of a journal.
ghost use Rattle.std.specs.Prelude.{◌≡◌, ◌↔◌, IsTrue, IfOk};
ghost use Rattle.serde_json.specs.Errors.{IsMemory};
ghost use Rattle.std.specs.Result.{result_map_both};
ghost use Rattle.serde_json.specs.View.{view};
ghost use Rattle.ring_journal.specs.Header.{opening_of};
ghost use Rattle.ring_journal.specs.Text.{value_on, event_on, header_on};

use crate::event::event_of;
use crate::fault::Kind;
use crate::header::{Header, header_of};
use ring_names::OutOfMemory;
use ring_rules::Event;
use serde_json::{Category, Error, Value};
use std::alloc::Global;

/// How many bytes a line has at most.
const MOST_LINE: usize = 2000;

/// The value that a line is, or what is wrong with it.
fn read_value(alloc: Global, line: &[u8]) -> Result<Result<Value, Kind>, OutOfMemory>
    ensures { IfOk result (λ value. result_map_both view (λ kind. kind) value ≡ value_on line.now) }
{
    if line.len() > MOST_LINE {
        return Ok(Err(Kind::LineTooLong));
    }
    match Value::from_slice(alloc, line) {
        Ok(value) => Ok(Ok(value)),
        Err(error) => {
            if is_memory(&error) {
                Err(OutOfMemory)
            } else {
                Ok(Err(Kind::NotJson))
            }
        }
    }
}

/// Whether memory was wanted and not found.
fn is_memory(error: &Error) -> bool
    ensures { IsTrue result ↔ IsMemory error.now }
{
    matches!(error.classify(), Category::Memory)
}

/// The event that a line says, or what is wrong with it.
pub(crate) fn read_event(alloc: Global, line: &[u8]) -> Result<Result<Event, Kind>, OutOfMemory>
    ensures { IfOk result (λ event. event ≡ event_on line.now) }
{
    let value = match read_value(alloc, line)? {
        Ok(value) => value,
        Err(kind) => return Ok(Err(kind)),
    };
    match event_of(alloc, &value)? {
        Some(event) => Ok(Ok(event)),
        None => Ok(Err(Kind::NotAnEvent)),
    }
}

/// The opening that a line gives, or what is wrong with it.
pub(crate) fn read_header(alloc: Global, line: &[u8]) -> Result<Result<Header, Kind>, OutOfMemory>
    ensures { IfOk result (λ header. result_map_both opening_of (λ kind. kind) header ≡ header_on line.now) }
{
    match read_value(alloc, line)? {
        Ok(value) => header_of(alloc, &value),
        Err(kind) => Ok(Err(kind)),
    }
}
