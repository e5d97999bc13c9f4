//! The row that is asked for.
ghost use Rattle.std.specs.Prelude.{◌≡◌, map};
ghost use Rattle.explore_words.specs.Rows.{ReadsWanted, joined};

use crate::joining::join;
use crate::rests::read_rest;
use irq_base::LineNo;
use line_wanted::Wanted;
use log_read::read_row;
use text_row::TextRow;

/// The line, and what is wanted of it, whose row the words are, put together with one space between
/// each two; none if they are no such row.
pub(crate) fn read_wanted_in(words: &[&str]) -> Option<(LineNo, Wanted)>
    ensures { ReadsWanted (joined (map (λ w. w.now) words.now)) result }
{
    let mut row = TextRow::new();
    if !join(&mut row, words) {
        return None;
    }
    read_wanted(row.bytes())
}

/// The line, and what is wanted of it, whose row this is, without a line feed; none if it is no
/// such row.
fn read_wanted(row: &[u8]) -> Option<(LineNo, Wanted)>
    ensures { ReadsWanted row.now result }
{
    if let Some((line, entry)) = read_row(row) {
        return Some((line, Wanted::Row(entry)));
    }
    let Some((line, left)) = read_rest(row) else {
        return None;
    };
    Some((line, Wanted::Rest(left)))
}
