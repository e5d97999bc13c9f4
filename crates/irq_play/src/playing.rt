//! Plays a board by the stated order, and prints it.
ghost use Rattle.std.specs.Prelude.{◌≡◌, [], IfOk, OnErr, OnOk, false, length, reverse};
ghost use Rattle.board_core.specs.Runs.{runs_of};
ghost use Rattle.board_report.specs.Reporting.{HasRoom};
ghost use Rattle.callbacks.specs.Heard.{Heard};
ghost use Rattle.irq_io.specs.Faults.{Counts};
ghost use Rattle.irq_play.specs.Played.{IsReady, PlaysBoard, TellsStep};
ghost use Rattle.play_report.specs.Failing.{is_printing, is_write_fault};

use crate::ended::StatedPlay;
use crate::summary::report_summary;
use board_core::System;
use board_def::Board;
use board_layout::lay;
use board_report::ReportRoom;
use callbacks::Handler;
use irq_base::NoMemory;
use irq_io::Sink;
use line_makers::{MakesDomainLine, OverDomains};
use play_report::{PlayedBoard, report, unplayed};
use std::alloc::Global;

/// Lays the board's lines over its domains, plays them by the stated order with the board's picks,
/// and prints the play, or with `summary` a summary of it. The maker makes each line; handlers are
/// called as they are due. Memory is taken before the first step, and by steps; none is taken once
/// a row is printed. So `PlayFailed::NoMemory` says that no step was made.
pub fn play_and_print<O: Sink, M: MakesDomainLine, H: Handler>(
    alloc: Global,
    board: &Board,
    summary: bool,
    maker: &M,
    handlers: &mut H,
    out: &mut O,
) -> PlayedBoard
    ensures plays { PlaysBoard board.now summary
        (λ runs. Heard H.hears runs handlers.old handlers.new) result.reports.reports
        (O.written out.old) (O.written out.new) result.end }
    ensures step { TellsStep M.Line.may_want board.now result.reports.reports result.end }
    ensures emptied { OnOk result.end (O.kept out.new ≡ []) }
    ensures write_fault { Counts (O.faults out.old) (O.faults out.new) (is_write_fault result.end) }
    ensures silent { is_printing result.end ≡ false → out.new ≡ out.old }
{
    let Ok((play, room)) = play_system(alloc, board, maker, handlers) else {
        return unplayed(alloc);
    };
    if summary {
        report_summary(board, play, room, out)
    } else {
        report(board, play, room, out)
    }
}

/// Lays the board's lines over its domains, has the maker make them, and plays them by the stated
/// order with the board's picks. Room for the reports is taken before. The only error is
/// `NoMemory`, before the first step.
pub fn play_system<'b, M: MakesDomainLine, H: Handler>(
    alloc: Global,
    board: &'b Board,
    maker: &M,
    handlers: &mut H,
) -> Result<(StatedPlay<'b, M::Line>, ReportRoom), NoMemory>
    ensures board { IfOk result (λ p. p.0.system.board ≡ board.now) }
    ensures room { IfOk result (λ p. HasRoom (length board.now.lines) p.1) }
    ensures heard { IfOk result (λ p.
        Heard H.hears (runs_of board.now (reverse p.0.system.log)) handlers.old handlers.new) }
    ensures unheard { OnErr result (Heard H.hears [] handlers.old handlers.new) }
{
    let (mut system, room) = ready_system(alloc, board, maker)?;
    let stop = system.play(board.picks(), handlers);
    let end = system.end_after(stop);
    Ok((StatedPlay { system, end }, room))
}

/// Lays the board's lines over its domains, has the maker make them, and takes the room for their
/// reports: all that the play needs but for its steps. The only error is `NoMemory`.
fn ready_system<'b, M: MakesDomainLine>(
    alloc: Global,
    board: &'b Board,
    maker: &M,
) -> Result<(System<'b, M::Line>, ReportRoom), NoMemory>
    ensures { IfOk result (λ ready. IsReady board.now ready.0 ready.1) }
{
    let (domains, layout) = lay(alloc, board)?;
    let room = ReportRoom::new(alloc, board)?;
    let maker = OverDomains::of_board(maker, &domains, board);
    let system = System::new(alloc, board, layout, &maker)?;
    Ok((system, room))
}
