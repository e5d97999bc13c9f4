//! Prints answers.
ghost use Rattle.std.specs.Prelude.{◌≡◌, ◌++◌, All, codes, decimal};
ghost use Rattle.irq_explore.specs.Answered.{answer_text};
ghost use Rattle.irq_explore.specs.Printing.{IsPrintableAnswer};
ghost use Rattle.irq_io.specs.Faults.{Counts};
ghost use Rattle.irq_io.specs.Whole.{KeepsNone, WritesAll, writing_failed};
ghost use Rattle.log_text.specs.EntryWords.{IsPrintable};
ghost use Rattle.log_text.specs.Rows.{history_text};

use board_report::hand_on;
use irq_base::{Entry, LineNo};
use irq_io::{Sink, WriteFailed, write_all};
use line_survey::Answer;
use log_text::KeptRows;
use text_row::TextRow;

/// Prints the rows of the line's entries, the oldest first.
fn print_log<O: Sink>(out: &mut O, line: LineNo, entries: &[Entry]) -> Result<(), WriteFailed>
    requires { All IsPrintable entries.now }
    ensures content { WritesAll (O.written out.old) (O.written out.new)
        (history_text line entries.now) result }
    ensures cause { Counts (O.faults out.old) (O.faults out.new) (writing_failed result) }
{
    let mut rows = KeptRows::new();
    for i in 0..entries.len() {
        let entry = entries[i];
        write_all(out, rows.row_of(line, &entry))?;
    }
    Ok(())
}

/// Prints that no log of at most `n` entries is as wanted.
fn print_not_within<O: Sink>(out: &mut O, n: u32) -> Result<(), WriteFailed>
    ensures content { WritesAll (O.written out.old) (O.written out.new)
        (codes "not within " ++ decimal n ++ codes "\n") result }
    ensures cause { Counts (O.faults out.old) (O.faults out.new) (writing_failed result) }
{
    let mut row = TextRow::new();
    row.push_bytes(b"not within ");
    row.push_number(n);
    row.push(b'\n');
    write_all(out, row.bytes())
}

/// Prints the answer.
fn print_rows<O: Sink>(out: &mut O, line: LineNo, answer: &Answer) -> Result<(), WriteFailed>
    requires { IsPrintableAnswer answer.now }
    ensures content { WritesAll (O.written out.old) (O.written out.new)
        (answer_text line answer.now) result }
    ensures cause { Counts (O.faults out.old) (O.faults out.new) (writing_failed result) }
{
    match answer {
        Answer::Found(entries) => print_log(out, line, entries.as_slice()),
        Answer::Never => write_all(out, b"never\n"),
        Answer::NotWithin(n) => print_not_within(out, *n),
    }
}

/// Prints the answer, and hands it on.
pub(crate) fn print_answer<O: Sink>(
    out: &mut O,
    line: LineNo,
    answer: &Answer,
) -> Result<(), WriteFailed>
    requires { IsPrintableAnswer answer.now }
    ensures content { WritesAll (O.written out.old) (O.written out.new)
        (answer_text line answer.now) result }
    ensures emptied { KeepsNone (O.kept out.new) result }
    ensures cause { Counts (O.faults out.old) (O.faults out.new) (writing_failed result) }
{
    print_rows(out, line, answer)?;
    hand_on(out)
}
