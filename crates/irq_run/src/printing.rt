//! Prints histories line by line; each row is handed to the sink by itself.
ghost use Rattle.std.specs.Prelude.{All, map};
ghost use Rattle.board_report.specs.Headline.{told_by};
ghost use Rattle.board_report.specs.Rows.{HasRows};
ghost use Rattle.irq_io.specs.Faults.{Counts};
ghost use Rattle.irq_io.specs.Whole.{WritesAll, writing_failed};
ghost use Rattle.log_text.specs.EntryWords.{IsPrintable};
ghost use Rattle.log_text.specs.Rows.{history_text};
ghost use Rattle.irq_run.specs.Report.{lines_text};

use irq_base::{History, LineNo, Reports};
use irq_io::{Sink, WriteFailed, write_all};
use log_text::KeptRows;

/// Prints the rows of each report's history, report by report.
pub(crate) fn print_lines<O: Sink>(out: &mut O, reports: &Reports) -> Result<(), WriteFailed>
    requires { All HasRows reports.now.reports }
    ensures content { WritesAll (O.written out.old) (O.written out.new)
        (lines_text (map told_by reports.now.reports)) result }
    ensures cause { Counts (O.faults out.old) (O.faults out.new) (writing_failed result) }
{
    let mut rows = KeptRows::new();
    for i in 0..reports.len() {
        let Some(report) = reports.get(i) else {
            unreachable!();
        };
        print_history(out, &mut rows, report.line, &report.history)?;
    }
    Ok(())
}

/// Prints the rows of a line's history, the oldest entry's first.
fn print_history<O: Sink>(
    out: &mut O,
    rows: &mut KeptRows,
    line: LineNo,
    history: &History,
) -> Result<(), WriteFailed>
    requires { All IsPrintable history.now.entries }
    ensures content { WritesAll (O.written out.old) (O.written out.new)
        (history_text line history.now.entries) result }
    ensures cause { Counts (O.faults out.old) (O.faults out.new) (writing_failed result) }
{
    for i in 0..history.len() {
        let Some(entry) = history.get(i) else {
            unreachable!();
        };
        let row = rows.row_of(line, &entry);
        write_all(out, row)?;
    }
    Ok(())
}
