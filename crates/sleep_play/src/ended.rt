//! A sleep that has ended.

use crate::printing::SleepRows;
use board_core::PlayEnd;
use board_def::{Board, Layout};
use board_report::{ReportRoom, hand_out};
use irq_base::Reports;
use irq_io::{Sink, WriteFailed};
use irq_line::{IrqLine, StepRefused};
use irq_sleeper::Sleeper;
use play_report::{EndedPlay, print_rows};
use std::marker::Model;

/// A board that slept, woke and was played on, and how the play ended.
#[derive(Drop)]
pub struct SleepPlay<'b, L: IrqLine> {
    pub(crate) sleeper: Sleeper<'b, L>,
    pub(crate) end: Result<PlayEnd, StepRefused>,
}

impl<'b, L: IrqLine> Model for SleepPlay<'b, L> {
    ghost use Rattle.board_core.specs.Hung.{stop_of};
    ghost use Rattle.irq_sleeper.specs.Wanted.{PlayWants};
    ghost use Rattle.sleep_play.specs.Played.{SleepPlaySeen, IsPlayedSleeper};

    ghost Value = { SleepPlaySeen };

    ghost view = { λ p. record { sleeper = p.sleeper; end = p.end } };

    ghost invariant = { λ p. IsPlayedSleeper p.sleeper p.end
        × PlayWants L.may_want p.sleeper p.sleeper.system.board.picks
        (stop_of p.end) };
}

impl<'b, L: IrqLine> EndedPlay for SleepPlay<'b, L> {
    ghost use Rattle.irq_sleeper.specs.Seen.{log_of};
    ghost use Rattle.sleep_play.specs.Played.{HandsOutSleep};
    ghost use Rattle.sleep_play.specs.Rows.{log_text};

    ghost board_of = { λ p. p.sleeper.system.board };

    ghost ended = { λ p. p.end };

    ghost text = { λ p. log_text (log_of p.sleeper) };

    ghost hands_out = { λ p. HandsOutSleep L.may_want p.sleeper };

    fn end(&self) -> Result<PlayEnd, StepRefused> {
        self.end
    }

    fn layout(&self) -> &Layout {
        self.sleeper.layout()
    }

    fn print<O: Sink>(&self, out: &mut O) -> Result<(), WriteFailed> {
        let steps = self.sleeper.entries();
        print_rows(out, &mut SleepRows { steps })
    }

    fn hand_out(self, board: &Board, room: ReportRoom) -> Reports {
        board.is_board();
        hand_out(board, self.sleeper.into_system(), room)
    }
}
