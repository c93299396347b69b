//! What the words ask for.
ghost use Rattle.std.specs.Prelude.{◌≡◌, ◌↔◌, Some, None, map, option_map, IfOk, IfSome};
ghost use Rattle.clap.specs.Words.{found_of, one_text, subcommand_rows_of};
ghost use Rattle.ring_words.specs.Words.{IsInRange, IsOfTaken, IsRefused, WritesNumber, means, named, named_by, number_of};

use crate::command::matches;
use clap::ArgMatches;
use clap::error::ErrorKind;
use ring_names::OutOfMemory;
use std::alloc::Global;

/// What the words ask the program to do.
#[derive(Clone, Copy, Debug, PartialEq, Eq)]
pub enum Asked {
    /// To play a script, and to keep a journal of it or none.
    Play { journal: bool },
    /// To play a step file, and to keep a journal of it or none.
    Step { journal: bool },
    /// To check a journal.
    Check,
    /// To play the load script of so many blocks and this seed, and to tell the summary.
    Load { blocks: u32, seed: u32 },
}

/// What the words ask for, or `None` where the command refuses them.
pub fn read_words<'a>(alloc: Global, words: &'a [&'a str]) -> Result<Option<Asked>, OutOfMemory>
    ensures usage { IfOk result (λ answer.
        answer ≡ None ↔ IsRefused (map (λ word. word.now) words.entry.now)) }
    ensures asked { IfOk result (λ answer. IfSome answer (λ asked.
        named_by (map (λ word. word.now) words.entry.now) ≡ Some (means asked))) }
    ensures range { IfOk result (λ answer. IfSome answer IsInRange) }
{
    match matches(alloc, words) {
        Ok(matches) => Ok(Some(asked_in(&matches))),
        Err(error) if error.kind() == ErrorKind::OutOfMemory => Err(OutOfMemory),
        Err(_) => Ok(None),
    }
}

/// What the matches of taken words ask for.
fn asked_in(matches: &ArgMatches<'_>) -> Asked
    requires { IsOfTaken (subcommand_rows_of matches.now) }
    ensures named { named (subcommand_rows_of matches.now) ≡ Some (means result) }
    ensures range { IsInRange result }
{
    match matches.subcommand() {
        Some(("play", play)) => Asked::Play {
            journal: play.get_flag("journal"),
        },
        Some(("step", step)) => Asked::Step {
            journal: step.get_flag("journal"),
        },
        Some(("check", _)) => Asked::Check,
        Some(("load", load)) => Asked::Load {
            blocks: number(load, "SIZE"),
            seed: number(load, "SEED"),
        },
        _ => unreachable!(),
    }
}

/// The number that the text of an argument writes.
fn number(matches: &ArgMatches<'_>, id: &str) -> u32
    requires { WritesNumber (one_text (found_of matches.now) id.now) }
    ensures { option_map number_of (one_text (found_of matches.now) id.now) ≡ Some result }
{
    match matches.get_one::<u32>(id) {
        Some(number) => number,
        None => unreachable!(),
    }
}
