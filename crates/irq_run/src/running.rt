//! Runs a board, and prints it.
ghost use Rattle.std.specs.Prelude.{◌≡◌, [], IfOk, OnOk, false, length};
ghost use Rattle.board_def.specs.Layout.{layout_of};
ghost use Rattle.board_core.specs.Seen.{board_lines};
ghost use Rattle.board_core.specs.Wanted.{SettleWants};
ghost use Rattle.board_report.specs.Reporting.{HasRoom, entries_in};
ghost use Rattle.irq_io.specs.Faults.{Counts};
ghost use Rattle.irq_run.specs.Came.{AreOver, CameOfShifts};
ghost use Rattle.irq_run.specs.Given.{EachGiven, lines_with};
ghost use Rattle.irq_run.specs.Ran.{IsRun, RunsBoard, TellsStep};
ghost use Rattle.play_report.specs.Failing.{is_printing, is_write_fault};
ghost use Rattle.workers.specs.Fit.{Fit};
ghost use Rattle.workers.specs.Given.{AreJobsGiven};
ghost use Rattle.workers.specs.Grown.{AreNew};
ghost use Rattle.workers.specs.Terms.{terms_of};

use crate::finishing::report_run;
use board_core::{System, make_lines};
use board_def::{Board, Layout};
use board_layout::lay;
use board_report::ReportRoom;
use callbacks::{Lent, SharedHandler};
use irq_base::NoMemory;
use irq_io::Sink;
use irq_line::{IrqLine, StepRefused};
use line_makers::{MakesDomainLine, OverDomains};
use play_report::{PlayedBoard, unplayed};
use std::alloc::Global;
use std::sync::Wait;
use std::thread::Threads;
use workers::{Gate, Jobs, SharedLines, gather, run_shifts, share};

/// Lays the board's lines over its domains, has the maker make them, puts each behind a lock, lets
/// the board's actors step in threads until none can, and prints each line's entries, line by line,
/// or with `summary` a summary of them. Up to 64 actors have a thread each, if it can be made; more
/// of them share threads. The board's picks are not used.
/// Handlers are called as they are due, by all threads, and the gate is called before each attempt
/// of a worker. Room for the reports is taken before the threads start, and no memory once a row is
/// printed. `PlayFailed::NoMemory` says that memory was refused before they started, or to take the
/// lines back from them: then the histories are lost.
pub fn run_and_print<
    R: Threads + Wait + Sync,
    O: Sink,
    M: MakesDomainLine,
    G: Gate + Sync,
    H: SharedHandler + Sync,
>(
    rt: &R,
    alloc: Global,
    board: &Board,
    summary: bool,
    maker: &M,
    gate: &G,
    handlers: &H,
    out: &mut O,
) -> PlayedBoard
where
    M::Line: Send + Sync,
    ensures runs { RunsBoard (H.gave handlers.now) board.now summary result.reports.reports
        (O.written out.old) (O.written out.new) result.end }
    ensures step { TellsStep M.Line.may_want board.now result.reports.reports result.end }
    ensures emptied { OnOk result.end (O.kept out.new ≡ []) }
    ensures write_fault { Counts (O.faults out.old) (O.faults out.new) (is_write_fault result.end) }
    ensures silent { is_printing result.end ≡ false → out.new ≡ out.old }
{
    let Ok((layout, room, lines, mut jobs)) = share_board(rt, alloc, board, maker) else {
        return unplayed(alloc);
    };
    // However the shifts ended: the steps that are left are made next, and if it was a refusal that
    // lasts, it is met again at one of them.
    run_shifts(rt, &lines, &mut jobs, gate, handlers).ok();
    match settle(alloc, board, layout, lines, jobs, handlers) {
        Ok((system, end)) => report_run(board, summary, system, end, room, out),
        Err(NoMemory) => unplayed(alloc),
    }
}

/// Lays the board's lines over its domains, takes the room for their reports, has the maker make
/// the lines, and shares them: all that the run needs before its threads start. The only error is
/// `NoMemory`.
fn share_board<'b, R: Threads, M: MakesDomainLine>(
    rt: &R,
    alloc: Global,
    board: &'b Board,
    maker: &M,
) -> Result<(Layout, ReportRoom, SharedLines<M::Line>, Jobs<'b, M::Line>), NoMemory>
    ensures layout { IfOk result (λ shared. shared.0 ≡ layout_of board.now) }
    ensures room { IfOk result (λ shared. HasRoom (length board.now.lines) shared.1) }
    ensures board { IfOk result (λ shared. shared.3.board ≡ board.now) }
    ensures fit { IfOk result (λ shared. Fit shared.2 shared.3) }
    ensures new { IfOk result (λ shared. AreNew shared.3) }
{
    let (domains, layout) = lay(alloc, board)?;
    let room = ReportRoom::new(alloc, board)?;
    let maker = OverDomains::of_board(maker, &domains, board);
    let lines = make_lines(alloc, board, &layout, &maker)?;
    let (lines, jobs) = share(rt, alloc, board, lines)?;
    Ok((layout, room, lines, jobs))
}

/// Takes the lines back from the workers, whose shifts have ended, and makes the steps that are
/// left, up to one that is refused. The only error is `NoMemory` for the lines and the order of
/// steps.
fn settle<'b, L: IrqLine, H: SharedHandler>(
    alloc: Global,
    board: &'b Board,
    layout: Layout,
    lines: SharedLines<L>,
    jobs: Jobs<'_, L>,
    handlers: &H,
) -> Result<(System<'b, L>, Result<(), StepRefused>), NoMemory>
    requires layout { layout ≡ layout_of board.now }
    requires board { jobs.board ≡ board.now }
    requires fit { Fit lines jobs }
    requires over { AreOver (terms_of L.seen L.may_want (H.gave handlers.now)) jobs }
    requires given { AreJobsGiven (H.gave handlers.now) jobs }
    ensures run { IfOk result (λ ran. IsRun board.now ran.0 ran.1) }
    ensures memory { IfOk result (λ ran. SettleWants L.may_want ran.0 ran.1) }
    ensures came { IfOk result (λ ran.
        CameOfShifts (terms_of L.seen L.may_want (H.gave handlers.now)) board.now
        (entries_in (board_lines ran.0.lines))) }
    ensures given { IfOk result (λ ran. EachGiven (H.gave handlers.now)
        (lines_with board.now (entries_in (board_lines ran.0.lines)))) }
{
    board.is_board();
    let lines = gather(alloc, lines, jobs)?;
    let mut system = System::of_lines(alloc, board, layout, lines)?;
    let end = system.settle_lines(&mut Lent(handlers));
    Ok((system, end))
}
