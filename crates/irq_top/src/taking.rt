//! The commands that read a board and play it.
ghost use Rattle.std.specs.Prelude.{◌≡◌, []};
ghost use Rattle.callbacks.specs.Heard.{Heard};
ghost use Rattle.irq_io.specs.Faults.{Counts};
ghost use Rattle.program_io.specs.Streams.{KeepsOutput};
ghost use Rattle.irq_top.specs.Commands.{TakesBoard, TellsTaken};
ghost use Rattle.irq_top.specs.Ending.{end_seen, is_read_fault_end};

use crate::ending::Ending;
use crate::outcome::Outcome;
use board_def::Board;
use callbacks::Handler;
use irq_io::{Sink, Source};
use line_makers::MakesDomainLine;
use program_io::read_input;
use std::alloc::Global;

/// A way to play a board and print it.
pub(crate) trait OnBoard {
    ghost use Rattle.std.specs.Prelude.{◌≡◌, ℕ, false, List, Option, Result};
    ghost use Rattle.irq_base.specs.declared.devices.Run.{Run};
    ghost use Rattle.irq_base.specs.declared.entries.Entry.{Entry};
    ghost use Rattle.irq_base.specs.declared.reporting.LineReport.{LineReport};
    ghost use Rattle.board_core.specs.declared.ends.PlayEnd.{PlayEnd};
    ghost use Rattle.program_io.specs.Streams.{KeepsOutput};
    ghost use Rattle.board_def.specs.Seen.{BoardSeen};
    ghost use Rattle.irq_top.specs.Commands.{TellsPlay};
    ghost use Rattle.irq_top.specs.Ending.{end_seen, is_read_fault_end};
    ghost use Rattle.callbacks.specs.Heard.{Heard};
    ghost use Rattle.play_report.specs.declared.failing.PlayFailed.{PlayFailed};
    ghost use Rattle.irq_top.specs.declared.ending.Ending.{Ending};

    /// What it does with a board: what says for which runs handlers were called, with these
    /// reports, with this output before and now, and with this ending.
    ghost does: { Self → (List Run → Type 0) → BoardSeen → List LineReport → Option (List ℕ)
        → Option (List ℕ) → Ending → Type 0 };

    /// What it tells of a step that was refused memory, with lines that may want memory for these
    /// entries that are due.
    ghost tells: { Self → (Option Entry → Type 0) → BoardSeen → List LineReport
        → Result PlayEnd PlayFailed → Type 0 };

    /// Plays the board, and prints its log, or a summary. Nothing is read.
    fn play<O: Sink, H: Handler, M: MakesDomainLine>(
        self,
        alloc: Global,
        board: Board,
        handlers: &mut H,
        maker: &M,
        out: &mut O,
    ) -> Outcome
        ensures does { does self (λ runs. Heard H.hears runs handlers.old handlers.new) board
            result.reports.reports (O.written out.old) (O.written out.new) result.ending }
        ensures wanted { TellsPlay (tells self M.Line.may_want) board result.reports.reports
            result.ending }
        ensures keeps { KeepsOutput (end_seen result.ending) (out.new ≡ out.old) (O.kept out.new)
            (O.faults out.old) (O.faults out.new) }
        ensures unread { is_read_fault_end result.ending ≡ false };
}

/// Reads a board, plays it in this way, and prints it.
pub(crate) fn take_board<S: Source, O: Sink, P: OnBoard + Drop, H: Handler, M: MakesDomainLine>(
    alloc: Global,
    way: P,
    src: &mut S,
    out: &mut O,
    handlers: &mut H,
    maker: &M,
) -> Outcome
    ensures takes { TakesBoard (Heard H.hears [] handlers.old handlers.new)
        (P.does way (λ runs. Heard H.hears runs handlers.old handlers.new)) (S.left src.old)
        (S.left src.new) result.reports.reports (O.written out.old) (O.written out.new)
        result.ending }
    ensures wanted { TellsTaken (P.tells way M.Line.may_want) (S.left src.old)
        result.reports.reports result.ending }
    ensures read_fault { Counts (S.faults src.old) (S.faults src.new)
        (is_read_fault_end result.ending) }
    ensures keeps { KeepsOutput (end_seen result.ending) (out.new ≡ out.old) (O.kept out.new)
        (O.faults out.old) (O.faults out.new) }
{
    match read_input(alloc, src) {
        Ok(board) => {
            board.is_board();
            way.play(alloc, board, handlers, maker, out)
        }
        Err(refused) => Outcome::without_reports(alloc, Ending::from(refused)),
    }
}
