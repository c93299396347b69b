//! The words of a line, one after another, and numbers.
ghost use Rattle.std.specs.Prelude.{◌≡◌, ◌≤◌, [], ◌∷◌, length, IfSome, IfNone};
ghost use Rattle.std.specs.List.{list_all, prefix_len, slice_range};
ghost use Rattle.ring_script.specs.Words.{is_space, is_inner, words_of, first_word, behind_word, behind_space};
ghost use Rattle.ring_script.specs.Words.{IsNextWord, body_start, is_digit, is_number, number_of};

/// What stands behind the word that is this one, or else behind `_`.
macro_rules! by_word {
    ($word:expr; $($text:literal => $answer:expr,)* _ => $other:expr) => {
        $(if $word == $text.as_slice() { $answer } else)* { $other }
    };
}

pub(crate) use by_word;

/// The words of a line, one after another. They take no memory. Words are separated by one or more spaces;
/// spaces at the start of the line and behind its last word belong to none.
#[derive(Clone, Copy, Debug)]
pub struct Words<'a> {
    line: &'a [u8],
    at: usize,
    ghost within: { at ≤ length line.now },
}

impl<'a> Words<'a> {
    ghost use Rattle.ring_script.specs.Place.{line_in, place_in, left_in};

    /// The words of this line, of which none is read yet.
    pub fn of(line: &'a [u8]) -> Words<'a>
        ensures line { line_in result ≡ line.now }
        ensures place { place_in result ≡ 0 }
    {
        Words { line, at: 0 }
    }

    /// Where in the line the next word starts, and where it ends; none where no word is left. The line is
    /// then read to the end of that word.
    pub fn next(&mut self) -> Option<(usize, usize)>
        ensures line { line_in self.new ≡ line_in self.old }
        ensures place { IfSome result (λ word. IsNextWord (line_in self.old) (place_in self.old) word.0 word.1) }
        ensures read { IfSome result (λ word. place_in self.new ≡ word.1) }
        ensures word { IfSome result (λ word. words_of (left_in self.old)
            ≡ slice_range (line_in self.old) word.0 word.1 ∷ words_of (left_in self.new)) }
        ensures none { IfNone result (words_of (left_in self.old) ≡ []) }
        ensures end { IfNone result (place_in self.new ≡ length (line_in self.old)) }
    {
        let start = self.at + run_of_spaces(&self.line[self.at..]);
        let end = start + run_of_inner(&self.line[start..]);
        self.at = end;
        if start < end {
            Some((start, end))
        } else {
            None
        }
    }

    /// Where in the line its rest starts, behind the one space that follows the last word that was read, and
    /// where it ends: as the body of a message it has its further spaces too. The line is then read to its
    /// end.
    pub fn rest(&mut self) -> (usize, usize)
        ensures line { line_in self.new ≡ line_in self.old }
        ensures start { result.0 ≡ body_start (line_in self.old) (place_in self.old) }
        ensures end { result.1 ≡ length (line_in self.old) }
        ensures read { place_in self.new ≡ length (line_in self.old) }
    {
        let end = self.line.len();
        let start = if self.at < end && self.line[self.at] == b' ' {
            self.at + 1
        } else {
            self.at
        };
        self.at = end;
        (start, end)
    }

    /// The next word, where one is left. The line is then read to the end of that word.
    pub(crate) fn next_word(&mut self) -> Option<&'a [u8]>
        ensures line { line_in self.new ≡ line_in self.old }
        ensures word { IfSome result (λ word. word.now ≡ first_word (left_in self.old)) }
        ensures left { left_in self.new ≡ behind_word (left_in self.old) }
        ensures words { IfSome result (λ word. words_of (left_in self.old) ≡ word.now ∷ words_of (left_in self.new)) }
        ensures none { IfNone result (words_of (left_in self.old) ≡ []) }
        ensures missing { IfNone result (first_word (left_in self.old) ≡ []) }
    {
        let (start, end) = self.next()?;
        Some(&self.line[start..end])
    }

    /// The first word of a line, and no bytes where it has none. The line is then read to the end of that word.
    pub(crate) fn first(&mut self) -> &'a [u8]
        ensures line { line_in self.new ≡ line_in self.old }
        ensures word { result.now ≡ first_word (left_in self.old) }
        ensures left { left_in self.new ≡ behind_word (left_in self.old) }
    {
        match self.next_word() {
            Some(word) => word,
            None => b"",
        }
    }

    /// What stands behind the one space that follows the last word that was read, to the end of the line.
    pub(crate) fn body(&mut self) -> &'a [u8]
        ensures { result.now ≡ behind_space (left_in self.old) }
    {
        let (start, end) = self.rest();
        &self.line[start..end]
    }
}

/// How many spaces the text begins with.
fn run_of_spaces(text: &[u8]) -> usize
    ensures run { result ≡ prefix_len is_space text.now }
    ensures within { result ≤ length text.now }
{
    text.iter().take_while(|byte| **byte == b' ').count()
}

/// How many bytes of a word the text begins with.
fn run_of_inner(text: &[u8]) -> usize
    ensures run { result ≡ prefix_len is_inner text.now }
    ensures within { result ≤ length text.now }
{
    text.iter().take_while(|byte| **byte != b' ').count()
}

/// The number that the word writes: a digit from 1 to 9 and further digits, up to a limit. None where it
/// writes none, or a greater one. It takes no memory.
pub fn number(word: &[u8], most: u64) -> Option<u64>
    ensures { result ≡ number_of most word.now }
{
    if !is_numeral(word) {
        return None;
    }
    let text = str::from_utf8(word).ok()?;
    let value = text.parse::<u64>().ok()?;
    if value <= most { Some(value) } else { None }
}

/// Whether the word is a digit from 1 to 9 and further digits.
fn is_numeral(word: &[u8]) -> bool
    ensures { result ≡ is_number word.now }
{
    match word.first() {
        Some(first) => *first != b'0' && all_digits(word),
        None => false,
    }
}

/// Whether the word has no byte but digits.
fn all_digits(word: &[u8]) -> bool
    ensures { result ≡ list_all is_digit word.now }
{
    word.iter().all(|byte| byte.is_ascii_digit())
}
