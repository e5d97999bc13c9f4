//! Hands out the reports of a play, and prints a summary of it: the totals are made of the reports.
ghost use Rattle.std.specs.Prelude.{◌≡◌, ◌≤◌, [], All, OnOk, true, false, length, map};
ghost use Rattle.board_report.specs.Headline.{told_by};
ghost use Rattle.board_report.specs.Reporting.{HasRoom};
ghost use Rattle.board_report.specs.Summable.{IsSummable};
ghost use Rattle.board_report.specs.Totals.{totals_text};
ghost use Rattle.irq_io.specs.Faults.{Counts};
ghost use Rattle.log_text.specs.LayoutRows.{layout_rows};
ghost use Rattle.irq_play.specs.Played.{HandsOutSystem};
ghost use Rattle.irq_play.specs.Report.{report_text};
ghost use Rattle.play_report.specs.Answers.{Answers, Prints};
ghost use Rattle.play_report.specs.Failing.{is_printing, is_write_fault};

use crate::ended::StatedPlay;
use board_core::PlayEnd;
use board_def::Board;
use board_report::{ReportRoom, hand_on, print_layout, print_totals};
use irq_base::Reports;
use irq_io::Sink;
use irq_line::IrqLine;
use play_report::{EndedPlay, PlayFailed, PlayedBoard};
use text_row::TextRow;

/// Hands out the reports of a play, and prints a summary of it if it came to its end.
pub(crate) fn report_summary<O: Sink, L: IrqLine>(
    board: &Board,
    play: StatedPlay<'_, L>,
    room: ReportRoom,
    out: &mut O,
) -> PlayedBoard
    requires board { play.system.board ≡ board.now }
    requires room { HasRoom (length board.now.lines) room }
    ensures plays { Answers (report_text board.now true play.entry.system.log)
        (HandsOutSystem L.may_want play.entry.system) result.reports.reports (O.written out.old)
        (O.written out.new) result.end }
    ensures emptied { OnOk result.end (O.kept out.new ≡ []) }
    ensures write_fault { Counts (O.faults out.old) (O.faults out.new) (is_write_fault result.end) }
    ensures silent { is_printing result.end ≡ false → out.new ≡ out.old }
{
    let mut row = TextRow::new();
    let laid = print_laid(board, &play, &mut row, out);
    let reports = play.take_reports(board, room);
    let end = match laid {
        Ok(end) => print_sums(&mut row, &reports, end, out),
        Err(failed) => Err(failed),
    };
    PlayedBoard { end, reports }
}

/// Prints the layout of a play that came to its end; `row` is lent for the rows.
fn print_laid<O: Sink, L: IrqLine>(
    board: &Board,
    play: &StatedPlay<'_, L>,
    row: &mut TextRow,
    out: &mut O,
) -> Result<PlayEnd, PlayFailed>
    requires { play.now.system.board ≡ board.now }
    ensures prints { Prints (layout_rows board.now) play.now.end (O.written out.old)
        (O.written out.new) result }
    ensures write_fault { Counts (O.faults out.old) (O.faults out.new) (is_write_fault result) }
    ensures silent { is_printing result ≡ false → out.new ≡ out.old }
{
    let end = play.end()?;
    print_layout(out, row, board, play.layout())?;
    Ok(end)
}

/// Prints the summary rows and the total after the layout, and has all of it handed on; `end` is
/// how the play ended.
fn print_sums<O: Sink>(
    row: &mut TextRow,
    reports: &Reports,
    end: PlayEnd,
    out: &mut O,
) -> Result<PlayEnd, PlayFailed>
    requires few { length reports.now.reports ≤ 64 }
    requires summable { All IsSummable reports.now.reports }
    ensures prints { Prints (totals_text (map told_by reports.now.reports)) (Ok end)
        (O.written out.old) (O.written out.new) result }
    ensures emptied { OnOk result (O.kept out.new ≡ []) }
    ensures write_fault { Counts (O.faults out.old) (O.faults out.new) (is_write_fault result) }
    ensures printing { is_printing result ≡ true }
{
    print_totals(out, row, reports)?;
    hand_on(out)?;
    Ok(end)
}
