//! A play that has ended, printed and handed out.
ghost use Rattle.std.specs.Prelude.{◌≡◌, ◌++◌, [], OnOk, false, length};
ghost use Rattle.board_report.specs.Reporting.{HasRoom};
ghost use Rattle.irq_io.specs.Faults.{Counts};
ghost use Rattle.log_text.specs.LayoutRows.{layout_rows};
ghost use Rattle.play_report.specs.Answers.{Answers, Prints};
ghost use Rattle.play_report.specs.Failing.{is_printing, is_write_fault};

use crate::failing::PlayFailed;
use board_core::PlayEnd;
use board_def::{Board, Layout};
use board_report::{ReportRoom, hand_on, print_layout};
use irq_base::Reports;
use irq_io::{Sink, WriteFailed};
use irq_line::StepRefused;
use std::alloc::Global;
use text_row::TextRow;

/// The result of a board's play: how it ended, and the histories that were taken out of the lines.
#[derive(Drop)]
pub struct PlayedBoard {
    /// How the play and its printing ended.
    pub end: Result<PlayEnd, PlayFailed>,
    /// One report for each line of the board, in its order; none if there was no memory to begin.
    pub reports: Reports,
}

/// A board's play that has ended.
pub trait EndedPlay {
    ghost use Rattle.std.specs.Prelude.{◌≡◌, ℕ, List, Result, IsOk, length};
    ghost use Rattle.board_core.specs.declared.ends.PlayEnd.{PlayEnd};
    ghost use Rattle.irq_base.specs.declared.reporting.LineReport.{LineReport};
    ghost use Rattle.irq_io.specs.Faults.{Counts};
    ghost use Rattle.irq_io.specs.Whole.{WritesAll, writing_failed};
    ghost use Rattle.irq_line.specs.declared.answers.StepRefused.{StepRefused};
    ghost use Rattle.board_def.specs.Layout.{layout_of};
    ghost use Rattle.board_def.specs.Seen.{BoardSeen};
    ghost use Rattle.board_report.specs.Reporting.{HasRoom};

    /// The board that was played.
    ghost board_of: { Self → BoardSeen };

    /// How the play ended.
    ghost ended: { Self → Result PlayEnd StepRefused };

    /// What is printed of it after the layout.
    ghost text: { Self → List ℕ };

    /// What reports hand out of it, by how it ended.
    ghost hands_out: { Self → Result PlayEnd StepRefused → List LineReport → Type 0 };

    /// How the play ended. The only error is that of the step that was refused.
    fn end(&self) -> Result<PlayEnd, StepRefused>
        ensures { result ≡ ended self.now };

    /// The board's layout.
    fn layout(&self) -> &Layout
        ensures { result.now ≡ layout_of (board_of self.now) };

    /// Prints the rows of a play that came to its end.
    fn print<O: Sink>(&self, out: &mut O) -> Result<(), WriteFailed>
        requires { IsOk (ended self.now) }
        ensures content { WritesAll (O.written out.old) (O.written out.new) (text self.now) result }
        ensures cause { Counts (O.faults out.old) (O.faults out.new) (writing_failed result) };

    /// The histories of the board's lines, one report for each.
    fn hand_out(self, board: &Board, room: ReportRoom) -> Reports
        requires board { board_of self ≡ board.now }
        requires room { HasRoom (length board.now.lines) room }
        ensures { hands_out self (ended self) result.reports };
}

/// Hands out the reports of a play, and prints it if it came to its end.
pub fn report<O: Sink, P: EndedPlay>(
    board: &Board,
    play: P,
    room: ReportRoom,
    out: &mut O,
) -> PlayedBoard
    requires board { P.board_of play ≡ board.now }
    requires room { HasRoom (length board.now.lines) room }
    ensures plays { Answers (layout_rows board.now ++ P.text play) (P.hands_out play)
        result.reports.reports (O.written out.old) (O.written out.new) result.end }
    ensures emptied { OnOk result.end (O.kept out.new ≡ []) }
    ensures write_fault { Counts (O.faults out.old) (O.faults out.new) (is_write_fault result.end) }
    ensures silent { is_printing result.end ≡ false → out.new ≡ out.old }
{
    let end = print_ended(board, &play, out);
    let reports = play.hand_out(board, room);
    PlayedBoard { end, reports }
}

/// Prints the layout and the rows of a play, if it came to its end, and has them handed on.
fn print_ended<O: Sink, P: EndedPlay>(
    board: &Board,
    play: &P,
    out: &mut O,
) -> Result<PlayEnd, PlayFailed>
    requires { P.board_of play.now ≡ board.now }
    ensures prints { Prints (layout_rows board.now ++ P.text play.now) (P.ended play.now)
        (O.written out.old) (O.written out.new) result }
    ensures emptied { OnOk result (O.kept out.new ≡ []) }
    ensures write_fault { Counts (O.faults out.old) (O.faults out.new) (is_write_fault result) }
    ensures silent { is_printing result ≡ false → out.new ≡ out.old }
{
    let end = play.end()?;
    let mut row = TextRow::new();
    print_layout(out, &mut row, board, play.layout())?;
    play.print(out)?;
    hand_on(out)?;
    Ok(end)
}

/// The result of a play that was refused memory for anything but a step.
pub fn unplayed(alloc: Global) -> PlayedBoard
    ensures end { result.end ≡ Err PlayFailed.NoMemory }
    ensures reports { result.reports.reports ≡ [] }
{
    PlayedBoard {
        end: Err(PlayFailed::NoMemory),
        reports: Reports::new(alloc),
    }
}
