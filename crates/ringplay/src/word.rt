//! The words of the command line.
ghost use Rattle.std.specs.Prelude.{◌≡◌, None, map, IfOk, IfSome};
ghost use Rattle.ring_words.specs.Words.{IsInRange};
ghost use Rattle.ringplay.specs.Words.{Asks, AsksNothing};

use ring_names::OutOfMemory;
use ring_words::{Asked, read_words};
use std::alloc::Global;
use std::marker::Model;

/// A word of the command line, which contracts see as its bytes.
#[derive(Drop, Debug)]
pub struct Word {
    text: String,
}

impl Model for Word {
    ghost use Rattle.std.specs.Prelude.{ℕ, List, string_bytes};

    ghost Value = { List ℕ };

    ghost view = { λ w. string_bytes w.text };
}

impl Word {
    /// The word with this text.
    pub fn new(alloc: Global, text: &str) -> Result<Word, OutOfMemory>
        ensures { IfOk result (λ word. word ≡ text.now) }
    {
        let text = String::from_str(alloc, text)?;
        Ok(Word { text })
    }

    fn text(&self) -> &str
        ensures { result.now ≡ self.now }
    {
        self.text.as_str()
    }
}

/// What the words ask for, if they ask for something.
pub(crate) fn asked_by(alloc: Global, words: &[Word]) -> Result<Option<Asked>, OutOfMemory>
    ensures asks { IfOk result (λ answer. IfSome answer (Asks words.now)) }
    ensures range { IfOk result (λ answer. IfSome answer IsInRange) }
    ensures nothing { IfOk result (λ answer. answer ≡ None → AsksNothing words.now) }
{
    let texts = texts_of(alloc, words)?;
    read_words(alloc, texts.as_slice())
}

fn texts_of<'a>(alloc: Global, words: &'a [Word]) -> Result<Vec<&'a str>, OutOfMemory>
    ensures { IfOk result (λ texts. map (λ text. text.now) texts.items ≡ words.now) }
{
    let mut texts = Vec::with_capacity(alloc, words.len())?;
    for word in words {
        texts.push(word.text())?;
    }
    Ok(texts)
}
