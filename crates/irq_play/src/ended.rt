//! A play by the stated order that has ended.
ghost use Rattle.std.specs.Prelude.{◌≡◌, ◌≤◌, All, length};
ghost use Rattle.board_report.specs.Reporting.{HasRoom};
ghost use Rattle.board_report.specs.Summable.{IsSummable};
ghost use Rattle.irq_play.specs.Played.{HandsOutSystem};

use board_core::{PlayEnd, System};
use board_def::{Board, Layout};
use board_report::{ReportRoom, hand_out};
use irq_base::Reports;
use irq_io::{Sink, WriteFailed};
use irq_line::{IrqLine, StepRefused};
use play_report::{EndedPlay, print_moves};
use std::marker::Model;

/// A board that was played by the stated order, and how the play ended.
#[derive(Drop)]
pub struct StatedPlay<'b, L: IrqLine> {
    pub(crate) system: System<'b, L>,
    pub(crate) end: Result<PlayEnd, StepRefused>,
}

impl<'b, L: IrqLine> Model for StatedPlay<'b, L> {
    ghost use Rattle.board_core.specs.Hung.{stop_of};
    ghost use Rattle.board_core.specs.Wanted.{PlayWants};
    ghost use Rattle.irq_play.specs.Played.{IsPlayed, StatedPlaySeen};

    ghost Value = { StatedPlaySeen };

    ghost view = { λ p. record { system = p.system; end = p.end } };

    ghost invariant = { λ p. IsPlayed p.system p.end
        × PlayWants L.may_want p.system p.system.board.picks (stop_of p.end) };
}

impl<'b, L: IrqLine> StatedPlay<'b, L> {
    /// The histories of the board's lines, one report for each, in the board's order.
    pub(crate) fn take_reports(self, board: &Board, room: ReportRoom) -> Reports
        requires board { self.system.board ≡ board.now }
        requires room { HasRoom (length board.now.lines) room }
        ensures handed_out { HandsOutSystem L.may_want self.entry.system self.entry.end
            result.reports }
        ensures few { length result.reports ≤ 64 }
        ensures summable { All IsSummable result.reports }
    {
        board.is_board();
        hand_out(board, self.system, room)
    }
}

impl<'b, L: IrqLine> EndedPlay for StatedPlay<'b, L> {
    ghost use Rattle.irq_play.specs.Played.{HandsOutSystem};
    ghost use Rattle.play_report.specs.Report.{moves_text};

    ghost board_of = { λ p. p.system.board };

    ghost ended = { λ p. p.end };

    ghost text = { λ p. moves_text p.system.log };

    ghost hands_out = { λ p. HandsOutSystem L.may_want p.system };

    fn end(&self) -> Result<PlayEnd, StepRefused> {
        self.end
    }

    fn layout(&self) -> &Layout {
        self.system.layout()
    }

    fn print<O: Sink>(&self, out: &mut O) -> Result<(), WriteFailed> {
        print_moves(out, &mut self.system.moves())
    }

    fn hand_out(self, board: &Board, room: ReportRoom) -> Reports {
        self.take_reports(board, room)
    }
}
