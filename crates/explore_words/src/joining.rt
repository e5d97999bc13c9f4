//! Words, put together as a row.
ghost use Rattle.std.specs.Prelude.{◌≡◌, ◌+◌, ◌<◌, [], ◌∷◌, length, map, false, true};
ghost use Rattle.log_text.specs.Spaced.{spaced};
ghost use Rattle.explore_words.specs.Joining.{Joins};
ghost use Rattle.explore_words.specs.Rows.{joined};

use text_row::{MAX_ROW, TextRow};

/// Adds the bytes, if there is room for them; whether there was.
fn push_fitting(row: &mut TextRow, bytes: &[u8]) -> bool
    ensures { Joins row.old bytes.now result row.new }
{
    if bytes.len() > MAX_ROW - row.bytes().len() {
        return false;
    }
    row.push_bytes(bytes);
    true
}

/// Adds the words, each with a space before it, if there is room for them; whether there was.
fn push_others(row: &mut TextRow, words: &[&str]) -> bool
    ensures { Joins row.old (spaced (map (λ w. w.now) words.now)) result row.new }
{
    let Some((first, rest)) = words.split_first() else {
        return true;
    };
    if !push_fitting(row, b" ") {
        return false;
    }
    if !push_fitting(row, first.as_bytes()) {
        return false;
    }
    push_others(row, rest)
}

/// Puts the words into the row, with one space between each two; whether there was room.
pub(crate) fn join(row: &mut TextRow, words: &[&str]) -> bool
    requires { row.old ≡ [] }
    ensures { Joins [] (joined (map (λ w. w.now) words.now)) result row.new }
{
    let Some((first, rest)) = words.split_first() else {
        return true;
    };
    if !push_fitting(row, first.as_bytes()) {
        return false;
    }
    push_others(row, rest)
}
