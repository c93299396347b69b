//! The command, as `clap` takes it.
ghost use Rattle.std.specs.Prelude.{◌≡◌, [], map, false, codes, IfOk, IfErr};
ghost use Rattle.clap.specs.Words.{app_of, fault_of, kind_of, rule_of, subcommand_of, subcommand_rows_of};
ghost use Rattle.clap.specs.declared.builder.Command.TheViews.{out-Command as fields_of};
ghost use Rattle.ring_words.specs.Words.{IsRefused, bare as bare_app, loading as loading_app, number_rule, playing as playing_app, ringplay};

use clap::error::ErrorKind;
use clap::{Arg, ArgAction, ArgMatches, Command, Error, value_parser};
use std::alloc::{AllocError, Global};

/// `play` or `step`, with its flag.
fn playing<'a>(alloc: Global, name: &'a str) -> Result<Command<'a>, AllocError>
    ensures app { IfOk result (λ command. app_of command ≡ playing_app name.entry.now) }
    ensures local { IfOk result (λ command. (fields_of command).has_globals ≡ false) }
{
    let journal = Arg::new(alloc, "journal")
        .long("journal")
        .action(ArgAction::SetTrue);
    Command::new(alloc, name).arg(journal)
}

/// How many blocks a load has.
fn size<'a>(alloc: Global) -> Arg<'a>
    ensures rule { rule_of result ≡ number_rule (codes "SIZE") 2 3900 }
    ensures local { result.global ≡ false }
{
    Arg::new(alloc, "SIZE")
        .required(true)
        .action(ArgAction::Set)
        .value_parser(value_parser!(u32).range(2..=3900))
}

/// The number by which a load chooses how many members there are, and who casts.
fn seed<'a>(alloc: Global) -> Arg<'a>
    ensures rule { rule_of result ≡ number_rule (codes "SEED") 0 1000000 }
    ensures local { result.global ≡ false }
{
    Arg::new(alloc, "SEED")
        .required(true)
        .action(ArgAction::Set)
        .value_parser(value_parser!(u32).range(0..=1000000))
}

/// `load`, with its two numbers.
fn loading<'a>(alloc: Global) -> Result<Command<'a>, AllocError>
    ensures app { IfOk result (λ command. app_of command ≡ loading_app) }
    ensures local { IfOk result (λ command. (fields_of command).has_globals ≡ false) }
{
    let size = size(alloc);
    let seed = seed(alloc);
    Command::new(alloc, "load").arg(size)?.arg(seed)
}

/// The command without its subcommands.
fn bare<'a>(alloc: Global) -> Command<'a>
    ensures { app_of result ≡ bare_app }
{
    Command::new(alloc, "ringplay")
        .no_binary_name(true)
        .disable_help_flag(true)
        .disable_help_subcommand(true)
        .disable_version_flag(true)
        .subcommand_required(true)
}

/// The whole command.
fn command<'a>(alloc: Global) -> Result<Command<'a>, AllocError>
    ensures { IfOk result (λ command. app_of command ≡ ringplay) }
{
    let play = playing(alloc, "play")?;
    let step = playing(alloc, "step")?;
    let check = Command::new(alloc, "check");
    let load = loading(alloc)?;
    let command = bare(alloc)
        .subcommand(play)?
        .subcommand(step)?
        .subcommand(check)?
        .subcommand(load)?;
    Ok(command)
}

/// The matches of the words. Another error than want of memory comes only of words that the command refuses.
pub(crate) fn matches<'a>(alloc: Global, words: &'a [&'a str]) -> Result<ArgMatches<'a>, Error>
    ensures taken { IfOk result (λ matches. fault_of ringplay (map (λ word. word.now) words.entry.now) ≡ []) }
    ensures found { IfOk result (λ matches. subcommand_rows_of matches
        ≡ subcommand_of ringplay (map (λ word. word.now) words.entry.now)) }
    ensures refused { IfErr result (λ error. (kind_of error ≡ ErrorKind.OutOfMemory → ⊥)
        → IsRefused (map (λ word. word.now) words.entry.now)) }
{
    let command = command(alloc)?;
    command.try_get_matches_from(words)
}
