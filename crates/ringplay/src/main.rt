//! Plays a ring of members that multicast to one another as RabbitMQ's `gm` does, by a script or event by event, and
//! checks journals of such rings: reads that from standard input and writes the report of the ring's last state to
//! standard output. Begin at `call`, whose `ring_call` does all that the program does, and at specs/Call.antt for what it
//! answers.
#![tactic(auto)]

ghost use Rattle.std.specs.Prelude.{◌≡◌};
ghost use Rattle.std.specs.Process.{exit_status};
ghost use Rattle.ringplay.specs.Cause.{status_of};

mod call;
mod cause;
mod judge;
mod keep;
mod play;
mod report;
mod step;
mod summing;
#[cfg(test)]
mod tests;
mod word;

use call::ring_call;
use cause::Cause;
use ring_io::{ReadSource, ShutGate, WriteSink};
use ring_names::OutOfMemory;
use std::io::ErrorKind;
use std::process::ExitCode;
use std::rt::Env;
use std::{env, mem};
use word::Word;

/// The words of the command line, behind the program's own name. Words that are no text are none that
/// the program takes, as no words are.
fn words_of(rt: &(impl Env + AllocGlobal)) -> Result<Vec<Word>, OutOfMemory> {
    let alloc = rt.alloc();
    let mut words = Vec::new(alloc);
    let args = match env::args(rt) {
        Ok(args) => args,
        Err(error) if error.kind() == ErrorKind::InvalidData => return Ok(words),
        Err(_) => return Err(OutOfMemory),
    };
    for arg in args.skip(1) {
        words.push(Word::new(alloc, arg.as_str())?)?;
    }
    Ok(words)
}

/// What the program ends with, by the cause.
fn exit_code(cause: Cause) -> ExitCode
    ensures { exit_status result ≡ status_of cause }
{
    ExitCode::from(cause.status())
}

fn main(rt: HostRuntime) -> ExitCode {
    let Ok(words) = words_of(&rt) else {
        return exit_code(Cause::OutOfMemory);
    };
    let mut source = ReadSource::new(rt.stdin());
    let mut sink = WriteSink::new(rt.stdout());
    let ended = ring_call(&rt, rt.alloc(), &words, &mut source, &mut sink, &ShutGate);
    let code = exit_code(ended.cause);
    // The process ends here, and with it all its memory: nothing is freed piece by piece.
    mem::forget(ended);
    code
}
