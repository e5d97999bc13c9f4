//! A play behind one demultiplexer that has ended.

use crate::printing::ChainRows;
use board_core::PlayEnd;
use board_def::{Board, Layout};
use board_report::{ReportRoom, hand_out};
use irq_base::Reports;
use irq_chained::Demux;
use irq_io::{Sink, WriteFailed};
use irq_line::{IrqLine, StepRefused};
use play_report::{EndedPlay, print_rows};
use std::marker::Model;

/// A demultiplexer in which its board was played, and how the play ended.
#[derive(Drop)]
pub struct ChainPlay<'b, L: IrqLine> {
    pub(crate) demux: Demux<'b, L>,
    pub(crate) end: Result<PlayEnd, StepRefused>,
}

impl<'b, L: IrqLine> Model for ChainPlay<'b, L> {
    ghost use Rattle.board_core.specs.Hung.{stop_of};
    ghost use Rattle.irq_chained.specs.Wanted.{PlayWants};
    ghost use Rattle.chained_play.specs.Played.{ChainPlaySeen, IsPlayedDemux};

    ghost Value = { ChainPlaySeen };

    ghost view = { λ p. record { demux = p.demux; end = p.end } };

    ghost invariant = { λ p. IsPlayedDemux p.demux p.end
        × PlayWants L.may_want p.demux p.demux.board.picks (stop_of p.end) };
}

impl<'b, L: IrqLine> EndedPlay for ChainPlay<'b, L> {
    ghost use Rattle.chained_play.specs.Played.{HandsOutChain};
    ghost use Rattle.chained_play.specs.Rows.{steps_text};

    ghost board_of = { λ p. p.demux.board };

    ghost ended = { λ p. p.end };

    ghost text = { λ p. steps_text p.demux.log };

    ghost hands_out = { λ p. HandsOutChain L.may_want p.demux };

    fn end(&self) -> Result<PlayEnd, StepRefused> {
        self.end
    }

    fn layout(&self) -> &Layout {
        self.demux.layout()
    }

    fn print<O: Sink>(&self, out: &mut O) -> Result<(), WriteFailed> {
        let steps = self.demux.steps();
        print_rows(out, &mut ChainRows { steps })
    }

    fn hand_out(self, board: &Board, room: ReportRoom) -> Reports {
        self.demux.is_kept();
        hand_out(board, self.demux.into_system(), room)
    }
}
