//! Words that are lines: the list that `sleep` takes.
ghost use Rattle.std.specs.Prelude.{◌+◌, ◌≤◌, length, map};
ghost use Rattle.log_read.specs.Takes.{Reads};
ghost use Rattle.irq_words.specs.Lines.{AreArmed, IsAfter, RiseAfter, line_word};
ghost use Rattle.irq_words.specs.Reading.{ReadsAfter, ReadsList};

use crate::few::{Few, MOST};
use crate::numbers::number_in;
use irq_base::LineNo;

/// The greatest number of a line.
const LAST_LINE: u32 = 65_535;

/// The line that the word is, if it has a greater number than `last`.
fn line_after(last: u32, word: &[u8]) -> Option<LineNo>
    ensures { Reads (IsAfter last) line_word word.now result }
{
    let line = number_in(word, 1, LAST_LINE)?;
    if line <= last {
        return None;
    }
    Some(LineNo(line))
}

/// The lines of `before`, and behind them those that the words name: each has a greater number than
/// the one before it, and the first a greater one than `last`.
fn lines_after(before: Few<LineNo>, last: u32, words: &[&str]) -> Option<Few<LineNo>>
    requires { length before + length words.now ≤ 64 }
    ensures { ReadsAfter (RiseAfter last) line_word before (map (λ w. w.now) words.now) result }
{
    let Some((first, rest)) = words.split_first() else {
        return Some(before);
    };
    let Some(line) = line_after(last, first.as_bytes()) else {
        return None;
    };
    let mut before = before;
    before.push(line);
    lines_after(before, line.0, rest)
}

/// The lines that the words are, at most 64, each with a greater number than the one before it.
pub(crate) fn read_lines(words: &[&str]) -> Option<Few<LineNo>>
    ensures { ReadsList AreArmed line_word (map (λ w. w.now) words.now) result }
{
    if words.len() > MOST {
        return None;
    }
    lines_after(Few::new(LineNo(0)), 0, words)
}
