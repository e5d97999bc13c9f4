//! Text lines.
ghost use Rattle.std.specs.Prelude.{◌≡◌, ◌==◌, ◌||◌, ◌<◌, false, [], ◌∷◌, length, take};
ghost use Rattle.std.specs.Prelude.{Some, IfSome, MatchOption};
ghost use Rattle.std.specs.List.{position};
ghost use Rattle.board_words.specs.TextLines.{text_lines, has_bad_byte, is_line_feed, is_allowed};
ghost use Rattle.board_words.specs.TextLines.{is_printable};
ghost use Rattle.board_words.specs.Ends.{ends_printable};
ghost use Rattle.board_words.specs.Seen.{lines_left};

/// The text lines of a text that are left.
#[derive(Clone, Copy)]
pub struct TextLines<'a> {
    rest: &'a [u8],
}

impl<'a> TextLines<'a> {
    /// The text lines of the whole text.
    pub fn new(text: &'a [u8]) -> TextLines<'a>
        ensures { lines_left result ≡ text_lines text.now }
    {
        TextLines { rest: text }
    }

    /// The next text line, without its line feed.
    pub fn next(&mut self) -> Option<&'a [u8]>
        ensures { MatchOption result ((lines_left self.old ≡ []) × (lines_left self.new ≡ []))
            (λ line. lines_left self.old ≡ line.now ∷ lines_left self.new) }
    {
        let (line, rest) = split_line(self.rest)?;
        self.rest = rest;
        Some(line)
    }

    /// The next text line, without its line feed, and whether a byte of it may not stand in a text.
    pub fn next_checked(&mut self) -> Option<(&'a [u8], bool)>
        ensures { MatchOption result ((lines_left self.old ≡ []) × (lines_left self.new ≡ []))
            (λ x. (lines_left self.old ≡ x.0.now ∷ lines_left self.new)
            × (x.1 ≡ has_bad_byte x.0.now)) }
    {
        // most lines are printable up to their line feed, so one walk is enough
        if let Some(end) = printable_line(self.rest) {
            let line = &self.rest[..end];
            self.rest = &self.rest[end + 1..];
            return Some((line, false));
        }
        let line = self.next()?;
        Some((line, has_bad_byte(line)))
    }
}

/// The place of the first line feed, if all bytes before it are printable.
fn printable_line(text: &[u8]) -> Option<usize>
    ensures { IfSome result (λ end. (Some end ≡ position is_line_feed text.now)
        × (has_bad_byte (take end text.now) ≡ false)) }
{
    for (i, b) in text.iter().enumerate() {
        if !is_printable(*b) {
            return if *b == b'\n' { Some(i) } else { None };
        }
    }
    None
}

/// The first text line of a text, and what follows it.
#[tactic(auto, using(crate::proofs::Texts::line_alone))]
fn split_line(text: &[u8]) -> Option<(&[u8], &[u8])>
    ensures { MatchOption result (text_lines text.now ≡ [])
        (λ x. text_lines text.now ≡ x.0.now ∷ text_lines x.1.now) }
{
    if text.is_empty() {
        return None;
    }
    match line_feed(text) {
        Some(end) => Some((&text[..end], &text[end + 1..])),
        None => Some((text, &[])),
    }
}

/// The place of the first line feed.
fn line_feed(text: &[u8]) -> Option<usize>
    ensures { result ≡ position is_line_feed text.now }
{
    text.iter().position(|b| *b == b'\n')
}

/// Whether a byte of the text line may not stand in a text.
pub fn has_bad_byte(line: &[u8]) -> bool
    ensures { result ≡ has_bad_byte line.now }
{
    for b in line {
        if !is_allowed(*b) {
            return true;
        }
    }
    false
}

/// Whether the byte is a tab, a carriage return, or printable.
fn is_allowed(byte: u8) -> bool
    ensures { result ≡ is_allowed byte }
{
    is_printable(byte) || is_control(byte)
}

/// Whether the byte is one from the space to `~`.
fn is_printable(byte: u8) -> bool
    ensures { result ≡ is_printable byte }
{
    (b' '..=b'~').contains(&byte)
}

/// Whether the byte is a tab or a carriage return. It stands apart, so that a printable byte costs
/// one comparison.
#[inline(never)]
fn is_control(byte: u8) -> bool
    ensures { result ≡ (byte == 9 || byte == 13) }
{
    byte == b'\t' || byte == b'\r'
}
