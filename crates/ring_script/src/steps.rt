//! Step files.
ghost use Rattle.std.specs.Prelude.{◌≡◌, ℕ, true, Some, Err, IfOk, IfSome};
ghost use Rattle.std.specs.List.{list_all};
ghost use Rattle.ring_script.specs.Words.{is_text_byte, words_of};
ghost use Rattle.ring_script.specs.Place.{left_in};
ghost use Rattle.ring_script.specs.Fault.{Tells};
ghost use Rattle.ring_script.specs.Steps.{is_step as is_a_step, step_word as the_step_word, is_asked_step, asked_word as the_asked_word};
ghost use Rattle.ring_script.specs.Steps.{step_grammar};
ghost use Rattle.ring_script.specs.Steps.{event_fault, client_fault, refuse_fault, event_by, refused_by, refusal_in};
ghost use Rattle.ring_script.specs.Steps.{event_of};
ghost use Rattle.ring_script.specs.Reading.{AreStepsOf, IsFirstFault, CanOpen, JudgesEachText};
ghost use Rattle.ring_script.specs.Reading.{HaveNameablePositions};

use crate::arguments::number_from;
use crate::fault::{Kind, LineFault, ScriptFault};
use crate::phrase::{Names, read_phrase};
use crate::statement::Statement;
use crate::text::{Text, read_text};
use crate::vocabulary::{MOST_CODE, Word};
use crate::words::{Words, by_word};
use ring_names::Name;
use ring_rules::Event;
use std::alloc::Global;

/// What a step file says: the events that are then tried. They name whom they like: the ring refuses an event
/// of a member that it hasn't.
pub type Steps = Text<Event>;

impl Statement for Event {
    ghost grammar = { step_grammar };

    ghost says = { event_of };

    fn read(alloc: Global, known: &[Name], word: &[u8], rest: Words) -> Result<Event, LineFault> {
        let _ = known;
        by_word!(word;
            b"refuse" => read_refuse(alloc, rest),
            _ => read_event(alloc, step_word(word).ok_or(Kind::UnknownCommand)?, rest)
        )
    }

    /// No line of a step file asks whether a name is known, so that none makes one known.
    fn joined(&self) -> Option<Name> {
        None
    }
}

/// The word that the text is, if step files have it.
fn step_word(text: &[u8]) -> Option<Word>
    ensures { result ≡ the_step_word text.now }
{
    let word = Word::of(text)?;
    if is_step(word) { Some(word) } else { None }
}

/// Whether step files have the word. They have those of what members do, who don't copy a queue yet.
fn is_step(word: Word) -> bool
    ensures { result ≡ is_a_step word }
{
    !matches!(
        word,
        Word::Sync | Word::SyncPut | Word::SyncTake | Word::SyncGain
    )
}

/// The word that the text is, if step files have it for what a client asked.
fn asked_word(text: &[u8]) -> Option<Word>
    ensures word { result ≡ the_asked_word text.now }
    ensures asked { IfSome result (λ word. is_asked_step word ≡ true) }
{
    let word = Word::of(text)?;
    if is_asked(word) { Some(word) } else { None }
}

/// Whether step files have the word for what a client asked.
fn is_asked(word: Word) -> bool
    ensures { result ≡ is_asked_step word }
{
    matches!(
        word,
        Word::Cast
            | Word::Publish
            | Word::Get
            | Word::Pop
            | Word::Ack
            | Word::Requeue
            | Word::Stop
            | Word::Admit
    )
}

/// The event of this word and of what is left on a line.
fn read_event(alloc: Global, word: Word, rest: Words) -> Result<Event, LineFault>
    requires text { list_all is_text_byte (left_in rest) ≡ true }
    ensures fault { Tells (event_fault (Some word) (left_in rest.entry)) result }
    ensures event { IfOk result (λ event. event ≡ event_by (Some word) (left_in rest.entry)) }
{
    let phrase = read_phrase(alloc, Names::Any, word, rest)?;
    match phrase.event() {
        Some(event) => Ok(event),
        None => unreachable!(),
    }
}

/// The refusal of what is left on a line.
fn read_refuse(alloc: Global, rest: Words) -> Result<Event, LineFault>
    requires text { list_all is_text_byte (left_in rest) ≡ true }
    ensures fault { Tells (refuse_fault (left_in rest.entry) (words_of (left_in rest.entry))) result }
    ensures refuse { IfOk result (λ event. event ≡ refusal_in (left_in rest.entry)) }
{
    let mut words = rest;
    let code = words.next_word().ok_or(Kind::MissingWord)?;
    let word = words.next_word().ok_or(Kind::MissingWord)?;
    match asked_word(word) {
        Some(word) => read_refused(alloc, code, word, words),
        None => Err(LineFault::Wrong(Kind::UnknownCommand)),
    }
}

/// What a client asked by this word and what is left on a line, refused with the number that a word writes.
fn read_refused(alloc: Global, code: &[u8], word: Word, rest: Words) -> Result<Event, LineFault>
    requires text { list_all is_text_byte (left_in rest) ≡ true }
    requires asked { is_asked_step word ≡ true }
    ensures fault { Tells (client_fault code.now (Some word) (left_in rest.entry)) result }
    ensures refuse { IfOk result (λ event. event ≡ refused_by code.now (Some word) (left_in rest.entry)) }
{
    let phrase = read_phrase(alloc, Names::Behind(code), word, rest)?;
    let code = number_from(code, MOST_CODE)?;
    match phrase.client() {
        Some(inner) => Ok(Event::Refuse { code, inner }),
        None => unreachable!(),
    }
}

/// Reads the steps that the bytes spell, exactly as `read_script` reads a script: each line is judged behind
/// those before it, and the first one that is wrong is told with its first fault.
#[tactic(auto, using(crate::proofs::Exact::judges_each, crate::proofs::Playable::steps_open, crate::proofs::Positions::steps_nameable))]
pub fn read_steps(alloc: Global, bytes: &[u8]) -> Result<Steps, ScriptFault>
    ensures steps { IfOk result (AreStepsOf bytes.now) }
    ensures opens { IfOk result (λ steps. CanOpen steps.members) }
    ensures positions { IfOk result (λ steps. HaveNameablePositions steps.lines) }
    ensures fault { (line kind : ℕ) → result ≡ Err (ScriptFault.At line kind)
        → IsFirstFault step_grammar bytes.now line kind }

    // A text is right or has a first fault, never both, and has one first fault alone.
    ensures judged { JudgesEachText step_grammar }
{
    read_text::<Event>(alloc, bytes)
}
