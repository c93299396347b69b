//! The words behind the first of a line.
ghost use Rattle.std.specs.Prelude.{◌≡◌, ◌∷◌, ◌<◌, ℕ, List, Option, true, Some, None, Ok, Err, IfOk};
ghost use Rattle.std.specs.Prelude.{OnOk, IfSome, IfErr, is_some, []};
ghost use Rattle.std.specs.List.{list_all};
ghost use Rattle.ring_script.specs.Words.{is_text_byte, words_of, number_of};
ghost use Rattle.ring_script.specs.Place.{left_in};
ghost use Rattle.ring_script.specs.Fault.{Tells};
ghost use Rattle.ring_script.specs.Line.{credit_in, is_among, name_fault, known_fault, number_fault, further_fault};
ghost use Rattle.ring_script.specs.Line.{members_fault, are_credit, credit_fault, body_fault, no_word};
ghost use Rattle.ring_script.specs.Line.{one_word, two_words, most_credit};

use crate::fault::{Kind, LineFault};
use crate::words::{Words, number};
use group_view::MOST_MEMBERS;
use ring_names::{Body, BodyFault, CreditSpec, Name};
use std::alloc::Global;

/// The names that are left on a line.
pub(crate) fn read_members(alloc: Global, rest: Words) -> Result<Vec<Name>, LineFault>
    ensures fault { Tells (members_fault (words_of (left_in rest.entry))) result }
    ensures names { IfOk result (λ names. names.items ≡ words_of (left_in rest.entry)) }
{
    let mut words = rest;
    let mut names = Vec::new(alloc);
    'names: while let Some(word) = words.next_word() {
        let name = further_name(&names, word)?;
        names.push(name)?;
    }
    if names.is_empty() {
        return Err(LineFault::Wrong(Kind::MissingWord));
    }
    Ok(names)
}

/// The word as a further name behind these.
pub fn further_name(names: &[Name], word: &[u8]) -> Result<Name, Kind>
    ensures ok { IfOk result (λ name. (name ≡ word.now) × (further_fault names.now word.now ≡ None)) }
    ensures fault { IfErr result (λ kind. further_fault names.now word.now ≡ Some kind) }
{
    let Ok(name) = Name::read(word) else {
        return Err(Kind::BadName);
    };
    if is_known(names, word) {
        return Err(Kind::NameTaken);
    }
    if names.len() >= MOST_MEMBERS {
        return Err(Kind::TooManyMembers);
    }
    Ok(name)
}

/// Whether one of the names is this one.
fn is_known(names: &[Name], word: &[u8]) -> bool
    ensures { result ≡ is_among names.now word.now }
{
    names.iter().any(|name| name.bytes() == word)
}

/// The credit that the two numbers left on a line make.
pub(crate) fn read_credit(rest: Words) -> Result<CreditSpec, LineFault>
    ensures fault { Tells (credit_fault (words_of (left_in rest.entry))) result }
    ensures credit { IfOk result (λ credit. (credit.initial, credit.more) ≡ credit_in (left_in rest.entry)) }
{
    let (initial, more) = two_left(rest)?;
    let credit = credit_from(initial, more).ok_or(Kind::BadNumber)?;
    Ok(credit)
}

/// The credit of these two numbers, if they make one.
fn credit_from(initial: &[u8], more: &[u8]) -> Option<CreditSpec>
    ensures is { is_some result ≡ are_credit (number_of most_credit initial.now) (number_of most_credit more.now) }
    ensures initial { IfSome result (λ credit. number_of most_credit initial.now ≡ Some credit.initial) }
    ensures more { IfSome result (λ credit. number_of most_credit more.now ≡ Some credit.more) }
{
    let initial = number(initial, 64)?;
    let more = number(more, 64)?;
    CreditSpec::new(initial as u32, more as u32)
}

/// That nothing is left on a line.
pub(crate) fn nothing_left(rest: Words) -> Result<(), Kind>
    ensures none { OnOk result (words_of (left_in rest.entry) ≡ []) }
    ensures fault { IfErr result (λ kind. no_word (words_of (left_in rest.entry)) ≡ Some kind) }
{
    let mut words = rest;
    match words.next_word() {
        Some(_) => Err(Kind::ExtraWord),
        None => Ok(()),
    }
}

/// The one word that is left on a line.
pub(crate) fn one_left<'a>(rest: Words<'a>) -> Result<&'a [u8], Kind>
    ensures word { IfOk result (λ word. words_of (left_in rest.entry) ≡ word.now ∷ []) }
    ensures fault { IfErr result (λ kind. (judged : List ℕ → Option Kind)
        → one_word judged (words_of (left_in rest.entry)) ≡ Some kind) }
{
    let mut words = rest;
    let Some(word) = words.next_word() else {
        return Err(Kind::MissingWord);
    };
    match words.next_word() {
        Some(_) => Err(Kind::ExtraWord),
        None => Ok(word),
    }
}

/// The two words that are left on a line.
pub(crate) fn two_left<'a>(rest: Words<'a>) -> Result<(&'a [u8], &'a [u8]), Kind>
    ensures words { IfOk result (λ two. words_of (left_in rest.entry) ≡ two.0.now ∷ two.1.now ∷ []) }
    ensures fault { IfErr result (λ kind. (judged : List ℕ → List ℕ → Option Kind)
        → two_words judged (words_of (left_in rest.entry)) ≡ Some kind) }
{
    let mut words = rest;
    let Some(first) = words.next_word() else {
        return Err(Kind::MissingWord);
    };
    let Some(second) = words.next_word() else {
        return Err(Kind::MissingWord);
    };
    match words.next_word() {
        Some(_) => Err(Kind::ExtraWord),
        None => Ok((first, second)),
    }
}

/// The word as a name.
pub(crate) fn name_from(word: &[u8]) -> Result<Name, Kind>
    ensures ok { IfOk result (λ name. (name ≡ word.now) × (name_fault word.now ≡ None)) }
    ensures fault { IfErr result (λ kind. name_fault word.now ≡ Some kind) }
{
    match Name::read(word) {
        Ok(name) => Ok(name),
        Err(_) => Err(Kind::BadName),
    }
}

/// The word as the name of one of these.
pub(crate) fn known_name(names: &[Name], word: &[u8]) -> Result<Name, Kind>
    ensures ok { IfOk result (λ name. (name ≡ word.now) × (known_fault names.now word.now ≡ None)) }
    ensures fault { IfErr result (λ kind. known_fault names.now word.now ≡ Some kind) }
{
    let name = name_from(word)?;
    if !is_known(names, word) {
        return Err(Kind::UnknownName);
    }
    Ok(name)
}

/// The word as a number up to a limit.
pub(crate) fn number_from(word: &[u8], most: u32) -> Result<u32, Kind>
    ensures ok { IfOk result (λ n. (number_of most word.now ≡ Some n) × (number_fault most word.now ≡ None)) }
    ensures fault { IfErr result (λ kind. number_fault most word.now ≡ Some kind) }
{
    match number(word, u64::from(most)) {
        Some(value) => Ok(value as u32),
        None => Err(Kind::BadNumber),
    }
}

/// The body that these bytes of text are.
pub(crate) fn read_body(alloc: Global, bytes: &[u8]) -> Result<Body, LineFault>
    requires text { list_all is_text_byte bytes.now ≡ true }
    ensures fault { Tells (body_fault bytes.now) result }
    ensures body { IfOk result (λ body. body ≡ bytes.now) }
{
    match Body::read(alloc, bytes) {
        Ok(body) => Ok(body),
        Err(BodyFault::TooLong) => Err(LineFault::Wrong(Kind::BodyTooLong)),
        Err(BodyFault::BadByte { .. }) => unreachable!(),
        Err(BodyFault::OutOfMemory) => Err(LineFault::OutOfMemory),
    }
}
