//! A phrase, read behind its word.
ghost use Rattle.std.specs.Prelude.{◌≡◌, true, Some, None, IfOk, IfErr};
ghost use Rattle.std.specs.List.{list_all};
ghost use Rattle.ring_script.specs.Words.{is_text_byte};
ghost use Rattle.ring_script.specs.Place.{left_in};
ghost use Rattle.ring_script.specs.Fault.{Tells};
ghost use Rattle.ring_script.specs.Line.{operand_in};
ghost use Rattle.ring_script.specs.Vocabulary.{shape_of};
ghost use Rattle.ring_script.specs.Phrase.{by_fault, newcomer_fault, phrase_fault, further_in, phrase_in};

use crate::arguments::{
    further_name, known_name, name_from, number_from, one_left, read_body, two_left,
};
use crate::fault::{Kind, LineFault};
use crate::vocabulary::{Further, MOST_CODE, MOST_POSITION, MOST_VERSION, Phrase, Shape, Word};
use crate::words::Words;
use ring_names::{Name, Position};
use std::alloc::Global;

/// How the names of a phrase are judged.
#[derive(Clone, Copy)]
pub(crate) enum Names<'a> {
    /// Each need only be a name.
    Any,
    /// The member's is one of these, and a newcomer's is a further one.
    Known(&'a [Name]),
    /// Each need only be a name; this is the number of a refusal, which is judged just before the member's.
    Behind(&'a [u8]),
}

impl Names<'_> {
    /// The word as the member's name.
    fn by(self, word: &[u8]) -> Result<Name, Kind>
        ensures ok { IfOk result (λ name. (name ≡ word.now) × (by_fault self.entry word.now ≡ None)) }
        ensures fault { IfErr result (λ kind. by_fault self.entry word.now ≡ Some kind) }
    {
        match self {
            Names::Any => name_from(word),
            Names::Known(names) => known_name(names, word),
            Names::Behind(code) => {
                number_from(code, MOST_CODE)?;
                name_from(word)
            }
        }
    }

    /// The word as the name of one who is to join.
    fn newcomer(self, word: &[u8]) -> Result<Name, Kind>
        ensures ok { IfOk result (λ name. (name ≡ word.now) × (newcomer_fault self.entry word.now ≡ None)) }
        ensures fault { IfErr result (λ kind. newcomer_fault self.entry word.now ≡ Some kind) }
    {
        match self {
            Names::Known(names) => further_name(names, word),
            Names::Any | Names::Behind(_) => name_from(word),
        }
    }
}

/// The phrase of a word and of what is left on its line.
pub(crate) fn read_phrase(
    alloc: Global,
    names: Names,
    word: Word,
    rest: Words,
) -> Result<Phrase, LineFault>
    requires text { list_all is_text_byte (left_in rest) ≡ true }
    ensures fault { Tells (phrase_fault (by_fault names.entry) (newcomer_fault names.entry) (shape_of word)
        (left_in rest.entry)) result }
    ensures phrase { IfOk result (λ phrase. phrase ≡ phrase_in word (left_in rest.entry)) }
{
    let (by, further) = read_shape(alloc, names, word.shape(), rest)?;
    Ok(Phrase { word, by, further })
}

/// The member's name and what stands behind it, in this shape.
fn read_shape(
    alloc: Global,
    names: Names,
    shape: Shape,
    rest: Words,
) -> Result<(Name, Further), LineFault>
    requires text { list_all is_text_byte (left_in rest) ≡ true }
    ensures fault { Tells (phrase_fault (by_fault names.entry) (newcomer_fault names.entry) shape
        (left_in rest.entry)) result }
    ensures by { IfOk result (λ read. read.0 ≡ operand_in (left_in rest.entry)) }
    ensures further { IfOk result (λ read. read.1 ≡ further_in shape (left_in rest.entry)) }
{
    match shape {
        Shape::Nothing => read_alone(names, rest),
        Shape::Body => read_with_body(alloc, names, rest),
        Shape::Name => read_with_name(names, rest),
        Shape::Newcomer => read_with_newcomer(names, rest),
        Shape::Position => read_with_position(names, rest),
        Shape::Version => read_with_version(names, rest),
    }
}

/// The name alone.
fn read_alone(names: Names, rest: Words) -> Result<(Name, Further), LineFault>
    ensures fault { Tells (phrase_fault (by_fault names.entry) (newcomer_fault names.entry) Shape.Nothing
        (left_in rest.entry)) result }
    ensures by { IfOk result (λ read. read.0 ≡ operand_in (left_in rest.entry)) }
    ensures further { IfOk result (λ read. read.1 ≡ further_in Shape.Nothing (left_in rest.entry)) }
{
    let by = names.by(one_left(rest)?)?;
    Ok((by, Further::Nothing))
}

/// And a body.
fn read_with_body(alloc: Global, names: Names, rest: Words) -> Result<(Name, Further), LineFault>
    requires text { list_all is_text_byte (left_in rest) ≡ true }
    ensures fault { Tells (phrase_fault (by_fault names.entry) (newcomer_fault names.entry) Shape.Body
        (left_in rest.entry)) result }
    ensures by { IfOk result (λ read. read.0 ≡ operand_in (left_in rest.entry)) }
    ensures further { IfOk result (λ read. read.1 ≡ further_in Shape.Body (left_in rest.entry)) }
{
    let mut words = rest;
    let word = words.next_word().ok_or(Kind::MissingWord)?;
    let by = names.by(word)?;
    let body = read_body(alloc, words.body())?;
    Ok((by, Further::Body(body)))
}

/// And a further name.
fn read_with_name(names: Names, rest: Words) -> Result<(Name, Further), LineFault>
    ensures fault { Tells (phrase_fault (by_fault names.entry) (newcomer_fault names.entry) Shape.Name
        (left_in rest.entry)) result }
    ensures by { IfOk result (λ read. read.0 ≡ operand_in (left_in rest.entry)) }
    ensures further { IfOk result (λ read. read.1 ≡ further_in Shape.Name (left_in rest.entry)) }
{
    let (by, other) = two_left(rest)?;
    let by = names.by(by)?;
    let other = name_from(other)?;
    Ok((by, Further::Name(other)))
}

/// And the name of one who is to join.
fn read_with_newcomer(names: Names, rest: Words) -> Result<(Name, Further), LineFault>
    ensures fault { Tells (phrase_fault (by_fault names.entry) (newcomer_fault names.entry) Shape.Newcomer
        (left_in rest.entry)) result }
    ensures by { IfOk result (λ read. read.0 ≡ operand_in (left_in rest.entry)) }
    ensures further { IfOk result (λ read. read.1 ≡ further_in Shape.Newcomer (left_in rest.entry)) }
{
    let (by, name) = two_left(rest)?;
    let by = names.by(by)?;
    let name = names.newcomer(name)?;
    Ok((by, Further::Name(name)))
}

/// And a position.
fn read_with_position(names: Names, rest: Words) -> Result<(Name, Further), LineFault>
    ensures fault { Tells (phrase_fault (by_fault names.entry) (newcomer_fault names.entry) Shape.Position
        (left_in rest.entry)) result }
    ensures by { IfOk result (λ read. read.0 ≡ operand_in (left_in rest.entry)) }
    ensures further { IfOk result (λ read. read.1 ≡ further_in Shape.Position (left_in rest.entry)) }
{
    let (by, at) = two_left(rest)?;
    let by = names.by(by)?;
    let at = number_from(at, MOST_POSITION)?;
    Ok((by, Further::Position(Position(u64::from(at)))))
}

/// And a version.
fn read_with_version(names: Names, rest: Words) -> Result<(Name, Further), LineFault>
    ensures fault { Tells (phrase_fault (by_fault names.entry) (newcomer_fault names.entry) Shape.Version
        (left_in rest.entry)) result }
    ensures by { IfOk result (λ read. read.0 ≡ operand_in (left_in rest.entry)) }
    ensures further { IfOk result (λ read. read.1 ≡ further_in Shape.Version (left_in rest.entry)) }
{
    let (by, version) = two_left(rest)?;
    let by = names.by(by)?;
    let version = number_from(version, MOST_VERSION)?;
    Ok((by, Further::Version(version)))
}
