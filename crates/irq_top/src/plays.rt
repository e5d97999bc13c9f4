//! The ways to play a board, a command each.

use crate::outcome::Outcome;
use crate::taking::OnBoard;
use board_def::Board;
use board_words::FaultKind;
use callbacks::Handler;
use chained_play::{NotForChain, chained_and_print};
use irq_base::LineNo;
use irq_io::Sink;
use irq_play::play_and_print;
use line_makers::MakesDomainLine;
use sleep_play::{NotForSleep, sleep_and_print};
use std::alloc::Global;

/// `play`: by the stated order; the log is printed, or a summary.
#[derive(Drop)]
pub(crate) struct Play {
    pub(crate) summary: bool,
}

impl OnBoard for Play {
    ghost use Rattle.irq_play.specs.Played.{TellsStep};
    ghost use Rattle.irq_top.specs.Commands.{PlaysAs};

    ghost does = { λ way heard. PlaysAs heard way.summary };

    ghost tells = { λ way. TellsStep };

    fn play<O: Sink, H: Handler, M: MakesDomainLine>(
        self,
        alloc: Global,
        board: Board,
        handlers: &mut H,
        maker: &M,
        out: &mut O,
    ) -> Outcome {
        let summary = self.summary;
        Outcome::of_play(play_and_print(alloc, &board, summary, maker, handlers, out))
    }
}

/// `chained`: behind one demultiplexer.
#[derive(Drop)]
pub(crate) struct Chain;

impl OnBoard for Chain {
    ghost use Rattle.chained_play.specs.Played.{TellsStep};
    ghost use Rattle.irq_top.specs.Commands.{ChainsAs};

    ghost does = { λ way heard. ChainsAs heard };

    ghost tells = { λ way. TellsStep };

    fn play<O: Sink, H: Handler, M: MakesDomainLine>(
        self,
        alloc: Global,
        board: Board,
        handlers: &mut H,
        maker: &M,
        out: &mut O,
    ) -> Outcome {
        match chained_and_print(alloc, &board, maker, handlers, out) {
            Ok(played) => Outcome::of_play(played),
            Err(NotForChain) => Outcome::refused(alloc, FaultKind::NotForChain),
        }
    }
}

/// `sleep`: with a sleep from which the armed lines wake it.
#[derive(Drop)]
pub(crate) struct Sleep<'a> {
    pub(crate) armed: &'a [LineNo],
}

impl OnBoard for Sleep<'_> {
    ghost use Rattle.sleep_play.specs.Played.{TellsStep};
    ghost use Rattle.irq_top.specs.Commands.{SleepsAs};

    ghost does = { λ way heard. SleepsAs heard way.armed.now };

    ghost tells = { λ way may_want b. TellsStep may_want b way.armed.now };

    fn play<O: Sink, H: Handler, M: MakesDomainLine>(
        self,
        alloc: Global,
        board: Board,
        handlers: &mut H,
        maker: &M,
        out: &mut O,
    ) -> Outcome {
        match sleep_and_print(alloc, board, self.armed, maker, handlers, out) {
            Ok(played) => Outcome::of_play(played),
            Err(NotForSleep) => Outcome::refused(alloc, FaultKind::NotForSleep),
        }
    }
}
