//! Prints a summary of a play: a row for each line, and the total.
ghost use Rattle.std.specs.Prelude.{◌≡◌, ◌≤◌, All, length, map};
ghost use Rattle.irq_io.specs.Faults.{Counts};
ghost use Rattle.irq_io.specs.Whole.{WritesAll, writing_failed};
ghost use Rattle.board_report.specs.Headline.{told_by};
ghost use Rattle.board_report.specs.Totals.{count_of_entries, summaries_text, totals_text};
ghost use Rattle.board_report.specs.Summable.{IsSummable};

use irq_base::Reports;
use irq_io::{Sink, WriteFailed, write_all};
use log_summary::{summary_row, total_row};
use text_row::TextRow;

/// Prints a row for each report, in their order, and the total; `row` is lent for the rows.
pub fn print_totals<O: Sink>(
    out: &mut O,
    row: &mut TextRow,
    reports: &Reports,
) -> Result<(), WriteFailed>
    requires few { length reports.now.reports ≤ 64 }
    requires summable { All IsSummable reports.now.reports }
    ensures content { WritesAll (O.written out.old) (O.written out.new)
        (totals_text (map told_by reports.now.reports)) result }
    ensures cause { Counts (O.faults out.old) (O.faults out.new) (writing_failed result) }
{
    print_summaries(out, row, reports)?;
    total_row(row, count_entries(reports));
    write_all(out, row.bytes())
}

/// Prints a row for each report.
fn print_summaries<O: Sink>(
    out: &mut O,
    row: &mut TextRow,
    reports: &Reports,
) -> Result<(), WriteFailed>
    requires { All IsSummable reports.now.reports }
    ensures content { WritesAll (O.written out.old) (O.written out.new)
        (summaries_text (map told_by reports.now.reports)) result }
    ensures cause { Counts (O.faults out.old) (O.faults out.new) (writing_failed result) }
{
    for i in 0..reports.len() {
        let Some(report) = reports.get(i) else {
            unreachable!();
        };
        summary_row(row, report.line, &report.history);
        write_all(out, row.bytes())?;
    }
    Ok(())
}

/// How many entries the reports have together.
fn count_entries(reports: &Reports) -> u64
    requires few { length reports.now.reports ≤ 64 }
    requires summable { All IsSummable reports.now.reports }
    ensures { result ≡ count_of_entries (map told_by reports.now.reports) }
{
    let mut total = 0;
    for i in 0..reports.len() {
        let Some(report) = reports.get(i) else {
            unreachable!();
        };
        total += report.history.len() as u64;
    }
    total
}
