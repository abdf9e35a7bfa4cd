ghost use Rattle.std.specs.Prelude.{◌≡◌, ◌≢◌, ◌<◌, ◌≤◌, ℕ, ◌+◌, ◌^◌, List, [], ◌∷◌, length, IsTrue, option_map, MatchOption};
ghost use Rattle.gn_lines.specs.Lines as spec;
ghost use Rattle.gn_lines.specs.Parts.{after_blanks, from_line_feed, from_end, line_end, is_separator, word_at, after_word};
ghost use Rattle.gn_lines.specs.Steps.{IsStep, lines_at, lines_past, count_of_others, IsAtEnd, IsNextLine};

use std::marker::Model;

/// The text behind a byte order mark.
fn without_mark(bytes: &[u8]) -> &[u8]
    ensures value { result.now ≡ spec.without_mark bytes.now }
    ensures shorter { length result.now ≤ length bytes.now }
{
    match bytes {
        [0xEF, 0xBB, 0xBF, text @ ..] => text,
        _ => bytes,
    }
}

#[inline(always)]
fn is_blank(byte: u8) -> bool
    ensures { result ≡ spec.is_blank byte }
{
    byte == b' ' || byte == b'\t' || byte == b'\r'
}

#[inline(always)]
fn is_separator(byte: u8) -> bool
    ensures { result ≡ is_separator byte }
{
    is_blank(byte) || byte == b'\n'
}

/// The text behind the blanks that it begins with.
#[inline(always)]
fn after_blanks(text: &[u8]) -> &[u8]
    ensures { result.now ≡ after_blanks text.now }
{
    for (i, byte) in text.iter().enumerate() {
        if !is_blank(*byte) {
            return &text[i..];
        }
    }
    &text[text.len()..]
}

/// The text from its first line feed on.
fn from_line_feed(text: &[u8]) -> &[u8]
    ensures { result.now ≡ from_line_feed text.now }
{
    for (i, byte) in text.iter().enumerate() {
        if *byte == b'\n' {
            return &text[i..];
        }
    }
    &text[text.len()..]
}

/// Where the text begins with the end of a line, or with a comment, the text from that end on.
#[inline(always)]
fn from_end(text: &[u8]) -> Option<&[u8]>
    ensures { option_map (λ t. t.now) result ≡ from_end text.now }
{
    match text {
        [] => Some(text),
        [b'\n', ..] => Some(text),
        [b'#', comment @ ..] => Some(from_line_feed(comment)),
        _ => None,
    }
}

/// The same behind blanks.
#[cold]
#[inline(never)]
fn line_end(text: &[u8]) -> Option<&[u8]>
    ensures { option_map (λ t. t.now) result ≡ line_end text.now }
{
    from_end(after_blanks(text))
}

/// The bytes up to a blank or a line feed, and the text behind them.
#[inline(always)]
fn split_word(text: &[u8]) -> (&[u8], &[u8])
    ensures word { result.0.now ≡ word_at text.now }
    ensures behind { result.1.now ≡ after_word text.now }
{
    let mut len = 0;
    while len < text.len() && !is_separator(text[len]) {
        len += 1;
    }
    text.split_at(len)
}

/// Whether a word ends with a backslash.
#[inline(always)]
fn ends_with_backslash(word: &[u8]) -> bool
    ensures { result ≡ spec.ends_with_backslash word.now }
{
    word.last() == Some(&b'\\')
}

/// What comes next in a line.
#[derive(Clone, Copy)]
enum Step<'a> {
    /// A word, and the text behind it.
    Word { word: &'a [u8], behind: &'a [u8] },
    /// The line ends, and the text goes on from there.
    End(&'a [u8]),
    /// The word before a backslash, and the text from the end of the physical line on.
    Continued { word: &'a [u8], end: &'a [u8] },
}

/// What comes next in the line that the text begins with.
#[inline(always)]
fn next_step(text: &[u8]) -> Step<'_>
    ensures { IsStep text.now result }
{
    let front = after_blanks(text);
    match from_end(front) {
        Some(end) => return Step::End(end),
        None => {}
    }
    let (word, behind) = split_word(front);
    if !ends_with_backslash(word) {
        return Step::Word { word, behind };
    }
    match line_end(behind) {
        None => Step::Word { word, behind },
        Some(end) => Step::Continued {
            word: &word[..word.len() - 1],
            end,
        },
    }
}

/// The text behind the line feed that it begins with, and how many of these were passed.
#[inline(always)]
fn past_line_feed(passed: u64, end: &[u8]) -> (u64, &[u8])
    requires { passed + length end.now < 2 ^ 64 }
    ensures lines { lines_at (result.0 + 1) result.1.now ≡ lines_past (passed + 1) end.now }
    ensures bound { result.0 + length result.1.now ≤ passed + length end.now }
    ensures shorter { length result.1.now ≤ length end.now }
{
    match end {
        [] => (passed, end),
        [_, rest @ ..] => (passed + 1, rest),
    }
}

/// The words of a text, line by line.
///
/// The first of the lines that are left is the one that is being read, without the words that were
/// given already.
#[derive(Drop)]
pub struct Lines<'a> {
    rest: &'a [u8],
    passed: u64,
}

impl<'a> Model for Lines<'a> {
    ghost use Rattle.std.specs.Prelude.{ℕ, ◌+◌, ◌<◌, ◌^◌, List, length};
    ghost use Rattle.gn_lines.specs.Lines.{Line, lines_from, physical_lines};

    ghost Value = { List Line };

    ghost view = { λ s. lines_from (s.passed + 1) (physical_lines s.rest.now) };

    ghost invariant = { λ s. s.passed + length s.rest.now < 2 ^ 64 };
}

impl<'a> Lines<'a> {
    ghost use Rattle.gn_lines.specs.Lines.{lines};

    /// All lines of a text.
    #[tactic(auto, unfolding(crate::specs::Lines::lines))]
    pub fn new(bytes: &'a [u8]) -> Lines<'a>
        ensures { result ≡ lines bytes.now }
    {
        Lines {
            rest: without_mark(bytes),
            passed: 0,
        }
    }

    /// The number of the line that is about to be read, from 1, if it has a word.
    #[inline(always)]
    pub fn number(&self) -> u64
        ensures { spec.first_words self.now ≢ [] → result ≡ spec.first_number self.now }
    {
        self.passed.saturating_add(1)
    }

    /// Takes the next word of the line that is being read.
    #[inline(always)]
    pub fn next_word(&mut self) -> Option<&'a [u8]>
        ensures word { MatchOption result (IsAtEnd self.old self.new)
            (λ word. spec.first_words self.old ≡ word.now ∷ spec.first_words self.new) }
        ensures others { spec.other_lines self.new ≡ spec.other_lines self.old }
    {
        loop {
            match next_step(self.rest) {
                Step::Word { word, behind } => {
                    self.rest = behind;
                    return Some(word);
                }
                Step::End(end) => {
                    self.rest = end;
                    return None;
                }
                Step::Continued { word, end } => {
                    (self.passed, self.rest) = past_line_feed(self.passed, end);
                    if !word.is_empty() {
                        return Some(word);
                    }
                }
            }
        }
    }

    /// Goes on to the next line, if there is one.
    #[inline(always)]
    pub fn next_line(&mut self) -> bool
        ensures line { IsNextLine result self.old self.new }
        ensures fewer { IsTrue result → count_of_others self.new < count_of_others self.old }
    {
        loop {
            match next_step(self.rest) {
                Step::Word { behind, .. } => {
                    self.rest = behind;
                }
                Step::End(end) => {
                    (self.passed, self.rest) = past_line_feed(self.passed, end);
                    return !end.is_empty();
                }
                Step::Continued { end, .. } => {
                    (self.passed, self.rest) = past_line_feed(self.passed, end);
                }
            }
        }
    }
}
