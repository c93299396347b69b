//! The top call: all that the program does, over any source and sink.
ghost use Rattle.std.specs.Prelude.{◌≡◌, ℕ, ◌≤◌, ◌<◌, List, Some, Err, length, IfOk, OnOk, IfSome};
ghost use Rattle.std.specs.Io.KnownBytes.{IsAtEnd};
ghost use Rattle.ring_io.specs.Contents.{Gains};
ghost use Rattle.ring_io.specs.Count.{Rose};
ghost use Rattle.ring_script.specs.Words.{lines_of};
ghost use Rattle.ring_words.specs.declared.asked.Asked.{Asked};
ghost use Rattle.ring_words.specs.Words.{IsInRange};
ghost use Rattle.ringplay.specs.Words.{Asks, AsksNothing};
ghost use Rattle.ringplay.specs.Cause.{status_of};
ghost use Rattle.ringplay.specs.Due.{IsLineDue, DoesAsAsked, IsDueToInput};
ghost use Rattle.ringplay.specs.Call.{Answers, IsDue, IsWritten, IsUnlessFailed, IsWithin, IsTooLarge, IsAskedTooMuch};
ghost use Rattle.ringplay.specs.Call.{IsInGrammar, IsRefused, IsRefusedFor, IsComplete};
ghost use Rattle.ringplay.specs.Call.{HasInput, AskToRead, AskToReadNothing, input_told};
ghost use Rattle.ringplay.specs.Call.{most_bytes as the_most_bytes, most_lines as the_most_lines};

use crate::cause::Cause;
use crate::judge::judge;
use crate::play::{Played, load, play};
use crate::step::step;
use crate::word::{Word, asked_by};
use ring_cluster::Cluster;
use ring_io::{Gate, ReadEnd, Sink, Source, read_all, write_all};
use ring_names::Items;
use ring_rules::Event;
use ring_script::{line_count, read_script, read_steps};
use ring_words::Asked;
use std::alloc::Global;
use std::thread::Threads;

/// How a call ended.
#[derive(Drop)]
pub struct Ended {
    /// The status with which the program ends, by the cause.
    pub status: u8,
    /// Why it ended.
    pub cause: Cause,
    /// What has happened in the ring, where a script was played, steps were taken, or a journal was checked.
    pub journal: Items<Event>,
    /// The cluster in which it happened: none where a journal was checked.
    pub cluster: Option<Cluster>,
    /// How many bytes the sink took.
    pub written: u64,
}

/// What is due before anything is written.
#[derive(Drop)]
struct Due {
    cause: Cause,
    journal: Vec<Event>,
    text: Vec<u8>,
    cluster: Option<Cluster>,
}

/// How many bytes of input are taken: of a script or a step file, and of a journal.
const MOST_BYTES: u64 = 1_048_576;

const MOST_JOURNAL_BYTES: u64 = 16_777_216;

/// How many lines of input are taken, likewise.
const MOST_LINES: u64 = 20_000;

const MOST_JOURNAL_LINES: u64 = 400_000;

fn most_bytes(asked: Asked) -> u64
    ensures { result ≡ the_most_bytes asked }
{
    match asked {
        Asked::Play { .. } | Asked::Step { .. } => MOST_BYTES,
        Asked::Check => MOST_JOURNAL_BYTES,
        Asked::Load { .. } => 0,
    }
}

fn most_lines(asked: Asked) -> u64
    ensures { result ≡ the_most_lines asked }
{
    match asked {
        Asked::Play { .. } | Asked::Step { .. } => MOST_LINES,
        Asked::Check => MOST_JOURNAL_LINES,
        Asked::Load { .. } => 0,
    }
}

/// An answer that writes the line of its cause, and has no journal and no cluster.
fn line_due(alloc: Global, cause: Cause) -> Due
    ensures { IsLineDue cause result }
{
    let journal = Vec::new(alloc);
    match cause.line(alloc) {
        Ok(text) => Due {
            cause,
            journal,
            text,
            cluster: None,
        },
        Err(_) => Due {
            cause: Cause::OutOfMemory,
            journal,
            text: Vec::new(alloc),
            cluster: None,
        },
    }
}

/// What the bytes of an input ask for.
fn due_to_input<T: Threads + Sync, G: Gate>(
    threads: &T,
    alloc: Global,
    asked: Asked,
    bytes: Vec<u8>,
    gate: &G,
) -> Due
    requires { IsInRange asked }
    ensures { IsDueToInput asked bytes.items result }
{
    if line_count(&bytes) > most_lines(asked) {
        return line_due(alloc, Cause::TooLarge);
    }
    match done(threads, alloc, asked, bytes, gate) {
        Ok(played) => Due {
            cause: Cause::Done,
            journal: played.journal,
            text: played.text,
            cluster: played.cluster,
        },
        Err(cause) => line_due(alloc, cause),
    }
}

/// Does what the bytes of an input ask for, if they spell it.
fn done<T: Threads + Sync, G: Gate>(
    threads: &T,
    alloc: Global,
    asked: Asked,
    bytes: Vec<u8>,
    gate: &G,
) -> Result<Played, Cause>
    requires range { IsInRange asked }
    requires lines { length (lines_of bytes.items) ≤ the_most_lines asked }
    ensures { DoesAsAsked asked bytes.items result }
{
    match asked {
        Asked::Play { journal } => done_by_script(threads, alloc, journal, bytes, gate),
        Asked::Step { journal } => done_by_steps(alloc, journal, bytes),
        Asked::Check => judge(alloc, bytes),
        Asked::Load { blocks, seed } => Ok(load(threads, alloc, blocks, seed, gate)?),
    }
}

fn done_by_script<T: Threads + Sync, G: Gate>(
    threads: &T,
    alloc: Global,
    journal: bool,
    bytes: Vec<u8>,
    gate: &G,
) -> Result<Played, Cause>
    ensures { DoesAsAsked (Asked.Play journal) bytes.items result }
{
    let script = read_script(alloc, &bytes)?;
    let played = play(threads, alloc, script, bytes, journal, gate)?;
    Ok(played)
}

fn done_by_steps(alloc: Global, journal: bool, bytes: Vec<u8>) -> Result<Played, Cause>
    ensures { DoesAsAsked (Asked.Step journal) bytes.items result }
{
    let steps = read_steps(alloc, &bytes)?;
    drop(bytes);
    let played = step(alloc, steps, journal)?;
    Ok(played)
}

/// The input of what is asked for, which is read to its end: nothing, and unread, where it has none.
fn input_of<S: Source>(alloc: Global, asked: Asked, source: &mut S) -> Result<Vec<u8>, ReadEnd>
    ensures within { IfOk result (λ bytes. length bytes.items ≤ the_most_bytes asked) }
    ensures bytes { IfOk result (λ bytes. IfSome (input_told asked (S.remaining source.old)) (λ all. bytes.items ≡ all)) }
    ensures end { OnOk result (HasInput asked → IsAtEnd (S.remaining source.new)) }
    ensures fault { result ≡ Err ReadEnd.Fault → HasInput asked × Rose (S.faults source.old) (S.faults source.new) }
    ensures large { result ≡ Err ReadEnd.TooLarge
        → IfSome (input_told asked (S.remaining source.old)) (λ all. the_most_bytes asked < length all) }
    ensures unread { (HasInput asked → ⊥) → source.new ≡ source.old }
{
    match asked {
        Asked::Load { .. } => Ok(Vec::new(alloc)),
        Asked::Play { .. } | Asked::Step { .. } | Asked::Check => {
            read_all(alloc, source, most_bytes(asked))
        }
    }
}

/// What is due for these words and this source.
fn due_for<T: Threads + Sync, S: Source, G: Gate>(
    threads: &T,
    alloc: Global,
    words: &[Word],
    source: &mut S,
    gate: &G,
) -> Due
    ensures due { IsDue words.now (S.remaining source.old) (Rose (S.faults source.old) (S.faults source.new))
        result.cause result.journal.items result.text.items result.cluster }
    ensures unread { AskToReadNothing words.now → source.new ≡ source.old }
    ensures whole { (asked : Asked) → Asks words.now asked → HasInput asked → result.cause ≡ Cause.Done
        → IsAtEnd (S.remaining source.new) }
{
    let asked = match asked_by(alloc, words) {
        Ok(Some(asked)) => asked,
        Ok(None) => return line_due(alloc, Cause::Usage),
        Err(_) => return line_due(alloc, Cause::OutOfMemory),
    };
    match input_of(alloc, asked, source) {
        Ok(bytes) => due_to_input(threads, alloc, asked, bytes, gate),
        Err(ReadEnd::Fault) => line_due(alloc, Cause::ReadFault),
        Err(ReadEnd::TooLarge) => line_due(alloc, Cause::TooLarge),
        Err(ReadEnd::OutOfMemory) => line_due(alloc, Cause::OutOfMemory),
    }
}

/// Does what the words ask for. `play` plays the script that the source gives, and writes the report of the ring's last
/// state to the sink; `step` tries the events of the step file that it gives, one by one, and writes a line for each that
/// is refused, and then the report; with `--journal` the journal follows. `check` judges the journal that it gives, and
/// writes the report of the state that it leaves. `load` reads nothing: it plays the load script of its size and seed, and
/// writes the summary of the ring's last state. The whole text stands before its first byte is written. The cluster runs
/// its rounds with the thread handle and the gate.
///
/// What has happened is a run of the ring, in which its laws hold after every event. So every confirmed, unacknowledged
/// message stands in every running synchronised mirror, through every promotion: each message to the queue that has come
/// round to its publisher and that nobody has acknowledged or dropped. And whoever leads after the first member
/// publishes `start` before anything else of the queue.
pub fn ring_call<T: Threads + Sync, S: Source, K: Sink, G: Gate>(
    threads: &T,
    alloc: Global,
    words: &[Word],
    source: &mut S,
    sink: &mut K,
    gate: &G,
) -> Ended
    ensures status { result.status ≡ status_of result.cause }

    // What is answered, why, and what was written; and the cluster in which it happened.
    ensures answers { Answers words.now (S.remaining source.old) (Rose (S.faults source.old) (S.faults source.new))
        (Gains K.may_lose_track (K.contents sink.old) (K.contents sink.new))
        (Rose (K.faults sink.old) (K.faults sink.new)) result }

    // Refused words, and a command without input, leave the source unread; and what was done was read to its end.
    ensures unread { AskToReadNothing words.now → source.new ≡ source.old }
    ensures whole { (asked : Asked) → Asks words.now asked → HasInput asked → result.cause ≡ Cause.Done
        → IsAtEnd (S.remaining source.new) }

    // Each cause, exactly.
    ensures usage_only { result.cause ≡ Cause.Usage → AsksNothing words.now }
    ensures usage { AsksNothing words.now → IsUnlessFailed result.cause Cause.Usage }
    ensures read_fault_only { result.cause ≡ Cause.ReadFault
        → AskToRead words.now × Rose (S.faults source.old) (S.faults source.new) }
    ensures write_fault_only { result.cause ≡ Cause.WriteFault → Rose (K.faults sink.old) (K.faults sink.new) }
    ensures too_large_only { result.cause ≡ Cause.TooLarge → IsAskedTooMuch words.now (S.remaining source.old) }
    ensures too_large { (asked : Asked) (all : List ℕ) → Asks words.now asked
        → input_told asked (S.remaining source.old) ≡ Some all
        → IsTooLarge asked all
        → (HasInput asked → Rose (S.faults source.old) (S.faults source.new) → ⊥) → IsUnlessFailed result.cause Cause.TooLarge }
    ensures script_only { (line kind : ℕ) → result.cause ≡ Cause.Script line kind
        → IsRefused words.now (S.remaining source.old) (Cause.Script line kind) }
    ensures illegal_only { (line code : ℕ) → result.cause ≡ Cause.Illegal line code
        → IsRefused words.now (S.remaining source.old) (Cause.Illegal line code) }
    ensures unreadable_only { (line kind : ℕ) → result.cause ≡ Cause.Unreadable line kind
        → IsRefused words.now (S.remaining source.old) (Cause.Unreadable line kind) }
    ensures refused { (asked : Asked) (all : List ℕ) (cause : Cause) → Asks words.now asked
        → input_told asked (S.remaining source.old) ≡ Some all → IsWithin asked all
        → IsRefusedFor asked all cause
        → (HasInput asked → Rose (S.faults source.old) (S.faults source.new) → ⊥) → IsUnlessFailed result.cause cause }

    // With words and input in the grammar and within the limits, and no fault, it is done; or a journal isn't legal.
    ensures complete { (asked : Asked) (all : List ℕ) → Asks words.now asked
        → input_told asked (S.remaining source.old) ≡ Some all
        → IsWithin asked all
        → IsInGrammar asked all
        → (HasInput asked → Rose (S.faults source.old) (S.faults source.new) → ⊥) → (Rose (K.faults sink.old) (K.faults sink.new) → ⊥)
        → IsComplete asked result.cause }
{
    let due = due_for(threads, alloc, words, source, gate);
    written(sink, due)
}

/// Writes what is due.
fn written<K: Sink>(sink: &mut K, due: Due) -> Ended
    ensures status { result.status ≡ status_of result.cause }
    ensures journal { result.journal ≡ due.journal.items }
    ensures cluster { result.cluster ≡ due.cluster }
    ensures written { IsWritten due.cause due.text.items
        (Gains K.may_lose_track (K.contents sink.old) (K.contents sink.new))
        (Rose (K.faults sink.old) (K.faults sink.new)) result }
{
    let len = due.text.len() as u64;
    let cause = due.cause;
    match write_all(sink, &due.text) {
        Ok(()) => Ended {
            status: cause.status(),
            cause,
            journal: Items::from_vec(due.journal),
            cluster: due.cluster,
            written: len,
        },
        Err(short) => Ended {
            status: Cause::WriteFault.status(),
            cause: Cause::WriteFault,
            journal: Items::from_vec(due.journal),
            cluster: due.cluster,
            written: short.written,
        },
    }
}
