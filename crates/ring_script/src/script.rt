//! Scripts.
ghost use Rattle.std.specs.Prelude.{◌≡◌, ℕ, true, Err, IfOk};
ghost use Rattle.std.specs.List.{list_all};
ghost use Rattle.ring_script.specs.Words.{is_text_byte, words_of};
ghost use Rattle.ring_script.specs.Place.{left_in};
ghost use Rattle.ring_script.specs.Fault.{Tells};
ghost use Rattle.ring_script.specs.Line.{no_word, one_word, number_fault};
ghost use Rattle.ring_script.specs.Script.{most_turns, keyword_of, script_grammar, command_fault, command_by};
ghost use Rattle.ring_script.specs.Script.{command_of, command_asking};
ghost use Rattle.ring_script.specs.Reading.{IsScriptOf, IsFirstFault, IsPlayable, JudgesEachText};

use crate::arguments::{nothing_left, number_from, one_left};
use crate::command::Command;
use crate::fault::{Kind, LineFault, ScriptFault};
use crate::phrase::{Names, read_phrase};
use crate::statement::Statement;
use crate::text::{Text, read_text};
use crate::vocabulary::Word;
use crate::words::{Words, by_word};
use ring_names::Name;
use ring_rules::Client;
use std::alloc::Global;

/// What a script says: the commands that the ring is then given.
pub type Script = Text<Command>;

/// The command that the first word of a line begins.
#[derive(Clone, Copy, PartialEq, Eq, Debug)]
pub(crate) enum Keyword {
    /// A member is asked what this word says.
    Asks(Word),
    /// The members take turns.
    Go,
    /// The ring works until nothing is left to do.
    Settle,
}

/// How many turns a round has at most.
const MOST_TURNS: u32 = 1000;

impl Keyword {
    /// What this word begins, if it does.
    fn of(word: &[u8]) -> Option<Keyword>
        ensures { result ≡ keyword_of word.now }
    {
        by_word!(word;
            b"cast" => Some(Keyword::Asks(Word::Cast)),
            b"publish" => Some(Keyword::Asks(Word::Publish)),
            b"get" => Some(Keyword::Asks(Word::Get)),
            b"pop" => Some(Keyword::Asks(Word::Pop)),
            b"ack" => Some(Keyword::Asks(Word::Ack)),
            b"requeue" => Some(Keyword::Asks(Word::Requeue)),
            b"join" => Some(Keyword::Asks(Word::Admit)),
            b"kill" => Some(Keyword::Asks(Word::Stop)),
            b"go" => Some(Keyword::Go),
            b"settle" => Some(Keyword::Settle),
            _ => None
        )
    }
}

impl Statement for Command {
    ghost grammar = { script_grammar };

    ghost says = { command_of };

    fn read(alloc: Global, known: &[Name], word: &[u8], rest: Words) -> Result<Command, LineFault> {
        match Keyword::of(word) {
            Some(Keyword::Asks(word)) => read_asked(alloc, known, word, rest),
            Some(Keyword::Go) => read_go(rest),
            Some(Keyword::Settle) => read_settle(rest),
            None => Err(LineFault::Wrong(Kind::UnknownCommand)),
        }
    }

    fn joined(&self) -> Option<Name> {
        Command::joined(self)
    }
}

/// What a member is asked by this word and what is left on a line.
fn read_asked(alloc: Global, known: &[Name], word: Word, rest: Words) -> Result<Command, LineFault>
    requires text { list_all is_text_byte (left_in rest) ≡ true }
    ensures fault { Tells (command_fault known.now (Some (Keyword.Asks word)) (left_in rest.entry)) result }
    ensures asked { IfOk result (λ command. command ≡ command_by (Some (Keyword.Asks word)) (left_in rest.entry)) }
{
    let phrase = read_phrase(alloc, Names::Known(known), word, rest)?;
    let asked = phrase.client().and_then(command_for);
    Ok(asked.unwrap_or(Command::Settle))
}

/// The command that has a member do what a client asks, where scripts have one: they have none that opens a copy.
fn command_for(client: Client) -> Option<Command>
    ensures { result ≡ command_asking client }
{
    match client {
        Client::Cast { by, body } => Some(Command::Cast { by, body }),
        Client::Publish { by, body } => Some(Command::Publish { by, body }),
        Client::Get { by } => Some(Command::Get { by }),
        Client::Pop { by } => Some(Command::Pop { by }),
        Client::Ack { by, at } => Some(Command::Ack { by, at }),
        Client::Requeue { by, at } => Some(Command::Requeue { by, at }),
        Client::Sync { .. } => None,
        Client::Admit { by, name } => Some(Command::Join { by, name }),
        Client::Stop { by } => Some(Command::Kill { by }),
    }
}

/// The round of what is left on a line.
fn read_go(rest: Words) -> Result<Command, LineFault>
    ensures fault { Tells (one_word (number_fault most_turns) (words_of (left_in rest.entry))) result }
    ensures go { IfOk result (λ command. command ≡ command_by (Some Keyword.Go) (left_in rest.entry)) }
{
    let turns = number_from(one_left(rest)?, MOST_TURNS)?;
    Ok(Command::Go { turns })
}

/// The settling, behind which nothing is left on a line.
fn read_settle(rest: Words) -> Result<Command, LineFault>
    ensures fault { Tells (no_word (words_of (left_in rest.entry))) result }
    ensures settle { IfOk result (λ command. command ≡ command_by (Some Keyword.Settle) (left_in rest.entry)) }
{
    nothing_left(rest)?;
    Ok(Command::Settle)
}

/// Reads the script that the bytes spell. Each line is judged behind those before it, and the first one
/// that is wrong is told with its first fault. The time is in proportion to the bytes. Want of memory is
/// answered also where the lines are too many to be numbered.
#[tactic(auto, using(crate::proofs::Exact::judges_each, crate::proofs::Playable::script_playable))]
pub fn read_script(alloc: Global, bytes: &[u8]) -> Result<Script, ScriptFault>
    ensures script { IfOk result (IsScriptOf bytes.now) }
    ensures playable { IfOk result IsPlayable }
    ensures fault { (line kind : ℕ) → result ≡ Err (ScriptFault.At line kind)
        → IsFirstFault script_grammar bytes.now line kind }

    // A text is right or has a first fault, never both, and has one first fault alone.
    ensures judged { JudgesEachText script_grammar }
{
    read_text::<Command>(alloc, bytes)
}
