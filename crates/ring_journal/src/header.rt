//! The first line of a journal.
ghost use Rattle.std.specs.Prelude.{◌≡◌, not, IfOk, IfSome, is_some, option_map, Some, option_and_then, codes};
ghost use Rattle.std.specs.Result.{result_map_both};
ghost use Rattle.serde_json.specs.View.{view, items_view};
ghost use Rattle.serde_json.specs.Find.{get, at};
ghost use Rattle.ring_script.specs.Line.{members_fault};
ghost use Rattle.ring_journal.specs.Header.{keys as keys_of, is_whole as whole_is, natural as natural_in, are_two as two_are};
ghost use Rattle.ring_journal.specs.Header.{texts_of, all_texts, are_texts as texts_are, has_shape as shape_is, header_in};
ghost use Rattle.ring_journal.specs.Header.{opening_of, opening_with, items_in, are_credit};

use crate::fault::Kind;
use crate::fields::count;
use ring_names::{CreditSpec, Items, Name, OutOfMemory};
use ring_script::further_name;
use serde_json::Value;
use std::alloc::Global;

/// What the first line of a journal gives: the members with which the ring opens, and the credit of its links.
#[derive(Drop, Debug)]
pub(crate) struct Header {
    /// 1 to 64 different names, in ring order.
    pub(crate) members: Items<Name>,
    /// The credit of each link.
    pub(crate) credit: CreditSpec,
}

/// How many members an object has; another value has none.
fn keys(value: &Value) -> usize
    ensures { result ≡ keys_of (view value.now) }
{
    match value.as_object() {
        Some(members) => members.len(),
        None => 0,
    }
}

/// Whether there is a whole number.
fn is_whole(value: Option<&Value>) -> bool
    ensures { result ≡ whole_is (option_map (λ v. view v.now) value.entry) }
{
    match value {
        Some(value) => is_whole_number(value),
        None => false,
    }
}

fn is_whole_number(value: &Value) -> bool
    ensures { result ≡ whole_is (Some (view value.now)) }
{
    match value.as_number() {
        Some(number) => !number.is_f64(),
        None => false,
    }
}

/// Whether there are two whole numbers.
fn are_two(value: Option<&Value>) -> bool
    ensures { result ≡ two_are (option_map (λ v. view v.now) value.entry) }
{
    match value {
        Some(value) => {
            count(value) == 2 && is_whole(value.get(0usize)) && is_whole(value.get(1usize))
        }
        None => false,
    }
}

/// Whether there are texts.
fn are_texts(value: Option<&Value>) -> bool
    ensures { result ≡ texts_are (option_map (λ v. view v.now) value.entry) }
{
    match value {
        Some(value) => match value.as_array() {
            Some(values) => all_strings(values.as_slice()),
            None => false,
        },
        None => false,
    }
}

/// Whether each value is a text.
fn all_strings(values: &[Value]) -> bool
    ensures { result ≡ all_texts (items_view values.now) }
{
    for value in values {
        if !value.is_string() {
            return false;
        }
    }
    true
}

/// Whether the value is an object of the three members alone, each of its kind.
fn has_shape(value: &Value) -> bool
    ensures { result ≡ shape_is (view value.now) }
{
    keys(value) == 3
        && are_two(value.get("credit"))
        && are_texts(value.get("members"))
        && is_whole(value.get("v"))
}

/// The number, where there is one that is whole and not below 0.
fn natural(value: Option<&Value>) -> Option<u64>
    ensures { result ≡ natural_in (option_map (λ v. view v.now) value.entry) }
{
    value?.as_u64()
}

/// One of the two numbers of a credit.
fn credit_number(value: &Value, place: usize) -> Option<u64>
    ensures { result ≡ natural_in (option_and_then (at place) (get (codes "credit") (view value.now))) }
{
    natural(value.get("credit")?.get(place))
}

/// The names that the values give, if they are those of a ring's opening.
fn read_names(alloc: Global, values: &[Value]) -> Result<Option<Vec<Name>>, OutOfMemory>
    ensures some { IfOk result (λ names. is_some names ≡ not (is_some (members_fault (texts_of (items_view values.now))))) }
    ensures names { IfOk result (λ names. IfSome names (λ all. all.items ≡ texts_of (items_view values.now))) }
{
    let mut names = Vec::new(alloc);
    for value in values {
        let text = match value.as_str() {
            Some(text) => text,
            None => "",
        };
        match further_name(&names, text.as_bytes()) {
            Ok(name) => names.push(name)?,
            Err(_) => return Ok(None),
        }
    }
    if names.is_empty() {
        return Ok(None);
    }
    Ok(Some(names))
}

/// The names of the members.
fn read_members(alloc: Global, value: &Value) -> Result<Option<Vec<Name>>, OutOfMemory>
    ensures some { IfOk result (λ names. is_some names
        ≡ not (is_some (members_fault (texts_of (items_in (get (codes "members") (view value.now))))))) }
    ensures names { IfOk result (λ names. IfSome names
        (λ all. all.items ≡ texts_of (items_in (get (codes "members") (view value.now))))) }
{
    match value.get("members") {
        Some(members) => match members.as_array() {
            Some(values) => read_names(alloc, values.as_slice()),
            None => Ok(None),
        },
        None => Ok(None),
    }
}

/// The credit that two numbers make, if they make one.
fn credit_by(initial: u64, more: u64) -> Option<CreditSpec>
    ensures some { is_some result ≡ are_credit initial more }
    ensures initial { IfSome result (λ credit. credit.initial ≡ initial) }
    ensures more { IfSome result (λ credit. credit.more ≡ more) }
{
    if initial > 64 || more > 64 {
        return None;
    }
    CreditSpec::new(initial as u32, more as u32)
}

/// The opening that the value gives, or what is wrong with it.
pub(crate) fn header_of(alloc: Global, value: &Value) -> Result<Result<Header, Kind>, OutOfMemory>
    ensures { IfOk result (λ header. result_map_both opening_of (λ kind. kind) header ≡ header_in (view value.now)) }
{
    if !has_shape(value) {
        return Ok(Err(Kind::BadHeader));
    }
    if natural(value.get("v")) != Some(1) {
        return Ok(Err(Kind::UnknownVersion));
    }
    read_contents(alloc, value)
}

/// The opening of the value's members and credit.
fn read_contents(alloc: Global, value: &Value) -> Result<Result<Header, Kind>, OutOfMemory>
    ensures { IfOk result (λ header. result_map_both opening_of (λ kind. kind) header
        ≡ opening_with (texts_of (items_in (get (codes "members") (view value.now))))
        (natural_in (option_and_then (at 0) (get (codes "credit") (view value.now))))
        (natural_in (option_and_then (at 1) (get (codes "credit") (view value.now))))) }
{
    let Some(initial) = credit_number(value, 0) else {
        return Ok(Err(Kind::BadHeader));
    };
    let Some(more) = credit_number(value, 1) else {
        return Ok(Err(Kind::BadHeader));
    };
    let Some(credit) = credit_by(initial, more) else {
        return Ok(Err(Kind::BadHeader));
    };
    match read_members(alloc, value)? {
        Some(members) => Ok(Ok(Header {
            members: Items::from_vec(members),
            credit,
        })),
        None => Ok(Err(Kind::BadHeader)),
    }
}
