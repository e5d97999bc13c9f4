//! The two parts of an input.
ghost use Rattle.std.specs.Prelude.{◌≡◌, ◌≤◌, Some, None, codes, length, MatchOption};
ghost use Rattle.std.specs.Str.{bytes_eq};
ghost use Rattle.irq_check.specs.Parts.{parts_of, split_at_dashes, BeginsRow, SkipsTo};
ghost use Rattle.log_read.specs.LogOf.{rows_of};

use log_read::cut_row;
use memchr::{memchr, memrchr};

/// The bytes before the first text line that is exactly `---`, and the bytes after that line; none
/// if there is no such line. Text lines without a `-` are passed over, however many they are.
pub fn cut_input(input: &[u8]) -> Option<(&[u8], &[u8])>
    ensures { MatchOption result (parts_of input.now ≡ None)
        (λ p. parts_of input.now ≡ Some (p.0.now, p.1.now)) }
{
    let mut before = 0;
    let mut rest = input;
    while let Some(start) = first_with_dash(rest) {
        before += start;
        rest = &rest[start..];
        let Some((line, after)) = cut_row(rest) else {
            return if is_dashes(rest) {
                Some((&input[..before], &[]))
            } else {
                None
            };
        };
        if is_dashes(line) {
            return Some((&input[..before], after));
        }
        before += line.len() + 1;
        rest = after;
    }
    None
}

/// Where the first text line begins that has a `-`; no text line before it is `---`. None if no
/// text line has a `-`.
fn first_with_dash(text: &[u8]) -> Option<usize>
    ensures { MatchOption result (split_at_dashes (rows_of text.now) ≡ None)
        (λ start. SkipsTo text.now start) }
{
    match memchr(b'-', text) {
        Some(dash) => Some(last_line_start(&text[..dash])),
        None => None,
    }
}

/// Where the last text line of these bytes begins.
fn last_line_start(bytes: &[u8]) -> usize
    ensures within { result ≤ length bytes.now }
    ensures begins { BeginsRow bytes.now result }
{
    match memrchr(b'\n', bytes) {
        Some(end) => end + 1,
        None => 0,
    }
}

/// Whether the text line, given without its line feed, is exactly `---`.
fn is_dashes(line: &[u8]) -> bool
    ensures { result ≡ bytes_eq line.now (codes "---") }
{
    line == b"---".as_slice()
}
