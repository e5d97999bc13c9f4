//! Hands out the reports of a run that has ended, and prints it if it came to its end.
ghost use Rattle.std.specs.Prelude.{◌≡◌, ◌≤◌, [], All, OnOk, Ok, false, length, map, true};
ghost use Rattle.board_core.specs.Hung.{stop_of};
ghost use Rattle.board_core.specs.Seen.{board_lines};
ghost use Rattle.board_core.specs.Wanted.{SettleWants};
ghost use Rattle.board_report.specs.Headline.{told_by};
ghost use Rattle.board_report.specs.Reporting.{HasRoom, entries_in};
ghost use Rattle.board_report.specs.Rows.{HasRows};
ghost use Rattle.board_report.specs.Summable.{IsSummable};
ghost use Rattle.irq_io.specs.Faults.{Counts};
ghost use Rattle.log_text.specs.LayoutRows.{layout_rows};
ghost use Rattle.irq_run.specs.Ran.{IsRun, ReportsRun};
ghost use Rattle.irq_run.specs.Report.{rows_text};
ghost use Rattle.play_report.specs.Answers.{Prints};
ghost use Rattle.play_report.specs.Failing.{is_printing, is_write_fault};

use crate::printing::print_lines;
use board_core::{PlayEnd, System};
use board_def::Board;
use board_report::{ReportRoom, hand_on, hand_out, print_layout, print_totals};
use irq_base::Reports;
use irq_io::Sink;
use irq_line::{IrqLine, StepRefused};
use play_report::{PlayFailed, PlayedBoard};
use text_row::TextRow;

/// Takes the histories out of the lines of a run that stopped so, and prints them after the layout,
/// or a summary of them, if the run came to its end.
pub(crate) fn report_run<O: Sink, L: IrqLine>(
    board: &Board,
    summary: bool,
    system: System<'_, L>,
    stop: Result<(), StepRefused>,
    room: ReportRoom,
    out: &mut O,
) -> PlayedBoard
    requires ran { IsRun board.now system stop }
    requires memory { SettleWants L.may_want system stop }
    requires room { HasRoom (length board.now.lines) room }
    ensures runs { ReportsRun L.may_want board.now summary
        (entries_in (board_lines system.entry.lines)) result.reports.reports (O.written out.old)
        (O.written out.new) result.end }
    ensures emptied { OnOk result.end (O.kept out.new ≡ []) }
    ensures write_fault { Counts (O.faults out.old) (O.faults out.new) (is_write_fault result.end) }
    ensures silent { is_printing result.end ≡ false → out.new ≡ out.old }
{
    board.is_board();
    system.is_kept();
    let mut row = TextRow::new();
    let end = system.end_after(stop);
    let laid = print_laid(board, &system, end, &mut row, out);
    let reports = hand_out(board, system, room);
    let end = match laid {
        Ok(end) => print_rows(&mut row, summary, &reports, end, out),
        Err(failed) => Err(failed),
    };
    PlayedBoard { end, reports }
}

/// Prints the layout of a run that came to its end; `row` is lent for the rows.
fn print_laid<O: Sink, L: IrqLine>(
    board: &Board,
    system: &System<'_, L>,
    end: Result<PlayEnd, StepRefused>,
    row: &mut TextRow,
    out: &mut O,
) -> Result<PlayEnd, PlayFailed>
    requires { IsRun board.now system.now (stop_of end) }
    ensures prints { Prints (layout_rows board.now) end (O.written out.old) (O.written out.new)
        result }
    ensures write_fault { Counts (O.faults out.old) (O.faults out.new) (is_write_fault result) }
    ensures silent { is_printing result ≡ false → out.new ≡ out.old }
{
    let end = end?;
    print_layout(out, row, board, system.layout())?;
    Ok(end)
}

/// Prints the histories line by line, or the summary rows and the total, and has what was printed
/// handed on; `end` is how the run ended.
fn print_rows<O: Sink>(
    row: &mut TextRow,
    summary: bool,
    reports: &Reports,
    end: PlayEnd,
    out: &mut O,
) -> Result<PlayEnd, PlayFailed>
    requires few { length reports.now.reports ≤ 64 }
    requires summable { All IsSummable reports.now.reports }
    requires rows { All HasRows reports.now.reports }
    ensures prints { Prints (rows_text summary (map told_by reports.now.reports)) (Ok end)
        (O.written out.old) (O.written out.new) result }
    ensures emptied { OnOk result (O.kept out.new ≡ []) }
    ensures write_fault { Counts (O.faults out.old) (O.faults out.new) (is_write_fault result) }
    ensures printing { is_printing result ≡ true }
{
    if summary {
        print_totals(out, row, reports)?;
    } else {
        print_lines(out, reports)?;
    }
    hand_on(out)?;
    Ok(end)
}
