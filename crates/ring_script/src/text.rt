//! A whole text, read line by line.
ghost use Rattle.std.specs.Prelude.{◌≡◌, ℕ, ◌<◌, ◌∷◌, ◌==◌, Err, IfOk, IfSome, length, position};
ghost use Rattle.ring_script.specs.Words.{lines_of};
ghost use Rattle.ring_script.specs.Reading.{Spells, IsFirstFault};

use crate::fault::{LineFault, ScriptFault};
use crate::reader::Reader;
use crate::statement::Statement;
use memchr::memchr;
use ring_names::{CreditSpec, Items, Name};
use std::alloc::Global;

/// What a script or a step file says.
#[derive(Drop, Debug)]
pub struct Text<S> {
    /// The members with which the ring opens, in their order.
    pub members: Items<Name>,
    /// The credit of each link.
    pub credit: CreditSpec,
    /// What its further lines say, in order, each behind the number of its line.
    pub lines: Items<(u32, S)>,
}

/// Reads what the bytes spell. Each line is judged behind those before it, and the first one that is wrong is
/// told with its first fault.
pub(crate) fn read_text<S: Statement>(alloc: Global, bytes: &[u8]) -> Result<Text<S>, ScriptFault>
    ensures spells { IfOk result (Spells S.grammar S.says bytes.now) }
    ensures fault { (line kind : ℕ) → result ≡ Err (ScriptFault.At line kind)
        → IsFirstFault S.grammar bytes.now line kind }
{
    let mut reader = Reader::opening(alloc);
    let mut rest = bytes;
    let mut number = 1;
    'lines: while !rest.is_empty() {
        let (line, behind) = next_line(rest);
        match reader.read(alloc, number, line) {
            Ok(()) => {}
            Err(fault) => return Err(fault.at(number)),
        }
        number = match number.checked_add(1) {
            Some(next) => next,
            None => return Err(ScriptFault::OutOfMemory),
        };
        rest = behind;
    }
    match reader.finish() {
        Ok(text) => Ok(text),
        Err(kind) => Err(LineFault::Wrong(kind).at(number)),
    }
}

/// How many lines the bytes have: a line feed ends a line, and a last run of bytes without one is a line
/// too.
pub fn line_count(bytes: &[u8]) -> u64
    ensures { result ≡ length (lines_of bytes.now) }
{
    let mut count = 0;
    let mut rest = bytes;
    'lines: while !rest.is_empty() {
        let (_, behind) = next_line(rest);
        count += 1;
        rest = behind;
    }
    count
}

/// The first line, and the text behind its line feed.
#[tactic(auto, using(crate::proofs::FirstLine::lines_of_found, crate::proofs::FirstLine::lines_of_missed))]
pub fn next_line(text: &[u8]) -> (&[u8], &[u8])
    requires { 0 < length text.now }
    ensures lines { lines_of text.now ≡ result.0.now ∷ lines_of result.1.now }
    ensures shorter { length result.1.now < length text.now }
{
    match feed_place(text) {
        Some(place) => (&text[..place], &text[place + 1..]),
        None => (text, &[]),
    }
}

/// The place of the first line feed.
#[tactic(auto, using(crate::proofs::FirstLine::feed_searched))]
fn feed_place(text: &[u8]) -> Option<usize>
    ensures place { result ≡ position (λ b. b == 10) text.now }
    ensures within { IfSome result (λ place. place < length text.now) }
{
    memchr(b'\n', text)
}
