//! The words of a text line.
ghost use Rattle.std.specs.Prelude.{◌≡◌, ◌≤◌, true, [], ◌∷◌, length, MatchOption};
ghost use Rattle.std.specs.Str.{bytes_eq};
ghost use Rattle.std.specs.List.{position_or_len};
ghost use Rattle.board_words.specs.TextLines.{words_of, is_blank};
ghost use Rattle.board_words.specs.Ends.{starts_word, ends_word};
ghost use Rattle.board_words.specs.Seen.{words_left, are_none, is_header};
ghost use Rattle.board_words.specs.Statements.{stands, stands_again};

/// The words of a text line that are left. Blanks divide them, and a comment ends them.
#[derive(Clone, Copy)]
pub struct Words<'a> {
    rest: &'a [u8],
}

impl<'a> Words<'a> {
    /// The words of the whole text line.
    pub fn of_line(line: &'a [u8]) -> Words<'a>
        ensures { words_left result ≡ words_of line.now }
    {
        Words { rest: line }
    }

    /// The next word.
    pub fn next(&mut self) -> Option<&'a [u8]>
        ensures { MatchOption result ((words_left self.old ≡ []) × (words_left self.new ≡ []))
            (λ word. words_left self.old ≡ word.now ∷ words_left self.new) }
    {
        let (word, rest) = split_word(self.rest)?;
        self.rest = rest;
        Some(word)
    }

    /// Whether no word is left.
    pub fn is_empty(self) -> bool
        ensures { result ≡ are_none (words_left self.entry) }
    {
        match self.rest.get(word_start(self.rest)) {
            Some(byte) => *byte == b'#',
            None => true,
        }
    }

    /// Whether the next word is `board`.
    pub fn is_header(self) -> bool
        ensures { result ≡ is_header (words_left self.entry) }
    {
        match split_word(self.rest) {
            Some((word, _)) => is(word, b"board"),
            None => false,
        }
    }

    /// Whether the text is among the words.
    pub(crate) fn has(mut self, text: &[u8]) -> bool
        ensures { result ≡ stands text.now (words_left self.entry) }
    {
        while let Some(word) = self.next() {
            if is(word, text) {
                return true;
            }
        }
        false
    }

    /// Whether the text is among the words more than once.
    pub(crate) fn has_again(mut self, text: &[u8]) -> bool
        ensures { result ≡ stands_again text.now (words_left self.entry) }
    {
        while let Some(word) = self.next() {
            if is(word, text) {
                return self.has(text);
            }
        }
        false
    }
}

/// Whether the word is this text.
pub(crate) fn is(word: &[u8], text: &[u8]) -> bool
    ensures value { result ≡ bytes_eq word.now text.now }
    ensures same { result ≡ true → word.now ≡ text.now }
{
    word == text
}

/// The first word of a text line, and what follows it.
fn split_word(line: &[u8]) -> Option<(&[u8], &[u8])>
    ensures { MatchOption result (words_of line.now ≡ [])
        (λ x. words_of line.now ≡ x.0.now ∷ words_of x.1.now) }
{
    let (_, begun) = line.split_at(word_start(line));
    let end = word_end(begun);
    if end == 0 {
        return None;
    }
    Some(begun.split_at(end))
}

/// The place of the first byte that isn't a blank, or the length.
#[tactic(auto, using(std::proofs::lemmas::List::Sums::position_or_len_is))]
fn word_start(line: &[u8]) -> usize
    ensures value { result ≡ position_or_len starts_word line.now }
    ensures within { result ≤ length line.now }
{
    for (i, b) in line.iter().enumerate() {
        if !is_blank(*b) {
            return i;
        }
    }
    line.len()
}

/// The place of the first blank or `#`, or the length.
#[tactic(auto, using(std::proofs::lemmas::List::Sums::position_or_len_is))]
fn word_end(line: &[u8]) -> usize
    ensures value { result ≡ position_or_len ends_word line.now }
    ensures within { result ≤ length line.now }
{
    for (i, b) in line.iter().enumerate() {
        if is_blank(*b) || *b == b'#' {
            return i;
        }
    }
    line.len()
}

/// Whether the byte divides words.
fn is_blank(byte: u8) -> bool
    ensures { result ≡ is_blank byte }
{
    byte == b' ' || byte == b'\t' || byte == b'\r'
}
