//! A play of a planned board that has ended.

use crate::planning::Plan;
use crate::printing::print_fleet;
use board_core::PlayEnd;
use board_def::{Board, Layout};
use board_report::ReportRoom;
use irq_base::Reports;
use irq_io::{Sink, WriteFailed};
use irq_line::{IrqLine, StepRefused};
use irq_play::StatedPlay;
use play_report::EndedPlay;

/// A planned board that was played by the stated order.
#[derive(Drop)]
pub(crate) struct PlugPlay<'p, L: IrqLine> {
    pub(crate) plan: &'p Plan,
    pub(crate) play: StatedPlay<'p, L>,
}

impl<'p, L: IrqLine> EndedPlay for PlugPlay<'p, L> {
    ghost use Rattle.std.specs.Prelude.{◌++◌};
    ghost use Rattle.irq_play.specs.Played.{HandsOutSystem};
    ghost use Rattle.play_report.specs.Report.{moves_text};
    ghost use Rattle.hotplug_play.specs.Texts.{fleet_text};

    ghost board_of = { λ p. p.play.system.board };

    ghost ended = { λ p. p.play.end };

    ghost text = { λ p. fleet_text p.plan.now.fleet.said ++ moves_text p.play.system.log };

    ghost hands_out = { λ p. HandsOutSystem L.may_want p.play.system };

    fn end(&self) -> Result<PlayEnd, StepRefused> {
        self.play.end()
    }

    fn layout(&self) -> &Layout {
        self.play.layout()
    }

    fn print<O: Sink>(&self, out: &mut O) -> Result<(), WriteFailed> {
        print_fleet(out, self.plan.fleet.said())?;
        self.play.print(out)
    }

    fn hand_out(self, board: &Board, room: ReportRoom) -> Reports {
        let PlugPlay { play, .. } = self;
        play.hand_out(board, room)
    }
}
