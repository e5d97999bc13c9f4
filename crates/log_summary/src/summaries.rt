//! The row of a line's summary, and the row of the total.
ghost use Rattle.std.specs.Prelude.{◌≡◌, ◌+◌, ◌<◌, ◌≤◌, [], ◌∷◌, ◌++◌, length, Some, slice_get};
ghost use Rattle.std.specs.Prelude.{reverse, codes, decimal};
ghost use Rattle.log_text.specs.Spaced.{spaced};
ghost use Rattle.log_summary.specs.Gained.{AreCountsOf, count_words};
ghost use Rattle.log_summary.specs.Lasts.{TellsLasts};
ghost use Rattle.log_summary.specs.Standings.{StandsAfter};
ghost use Rattle.log_summary.specs.Texts.{summary_text, total_text};

use crate::counts::Counts;
use crate::pieces::{push_count, push_number, push_word};
use crate::standing::Standing;
use irq_base::{Entry, EntryKind, History, LineNo};
use text_row::TextRow;

/// Writes the summary row of the line: how many entries its history has, how many of each kind, and
/// whether the line is left stopped, disabled or enabled. What the row held before is gone.
pub fn summary_row(row: &mut TextRow, line: LineNo, history: &History)
    requires few { length history.now.entries ≤ 100000000 }
    requires lasts { TellsLasts history.now.entries }
    ensures { row.new ≡ summary_text line history.now.entries }
{
    let (counts, standing) = summarize(history);
    row.clear();
    row.push_bytes(b"line");
    push_number(row, u64::from(line.0));
    push_count(row, b"entries", history.len() as u64);
    push_counts(row, &counts);
    push_word(row, standing.word());
    row.push(b'\n');
}

/// Writes the row that says how many entries all lines have together. What the row held before is
/// gone.
pub fn total_row(row: &mut TextRow, entries: u64)
    ensures { row.new ≡ total_text entries }
{
    row.clear();
    row.push_bytes(b"total");
    push_count(row, b"entries", entries);
    row.push(b'\n');
}

// Goes through the history once.
fn summarize(history: &History) -> (Counts, Standing)
    requires few { length history.now.entries ≤ 100000000 }
    requires lasts { TellsLasts history.now.entries }
    ensures counts { AreCountsOf history.now.entries result.0 }
    ensures standing { StandsAfter (reverse history.now.entries) result.1 }
{
    let mut counts = Counts::new();
    let mut standing = Standing::new();
    for i in 0..history.len() {
        let Some(kind) = history.kind(i) else {
            unreachable!();
        };
        counts.add(kind);
        if kind == EntryKind::Standing {
            standing.add(entry_at(history, i));
        }
    }
    (counts, standing)
}

// The entry at the place.
fn entry_at(history: &History, place: usize) -> Entry
    requires { place < length history.now.entries }
    ensures { slice_get history.now.entries place ≡ Some result }
{
    let Some(entry) = history.get(place) else {
        unreachable!();
    };
    entry
}

// Adds the counts, each behind its name.
fn push_counts(row: &mut TextRow, counts: &Counts)
    requires { length row.old ≤ 60 }
    ensures text { row.new ≡ row.old ++ spaced (count_words counts.now) }
    ensures grows { length row.new ≤ length row.old + 150 }
{
    push_count(row, b"asks", counts.asks);
    push_count(row, b"takes", counts.takes);
    push_count(row, b"runs", counts.runs);
    push_count(row, b"threads", counts.threads);
    push_count(row, b"served", counts.served);
}
