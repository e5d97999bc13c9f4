//! Puts a board to sleep, wakes it, and prints it.
ghost use Rattle.std.specs.Prelude.{◌≡◌, [], IfOk, OnErr, OnOk, false, length, reverse};
ghost use Rattle.callbacks.specs.Heard.{Heard};
ghost use Rattle.board_core.specs.Runs.{runs_of};
ghost use Rattle.board_core.specs.Making.{MakesAll};
ghost use Rattle.board_def.specs.Layout.{layout_of};
ghost use Rattle.board_def.specs.Seen.{BoardSeen};
ghost use Rattle.board_report.specs.Reporting.{HasRoom};
ghost use Rattle.irq_io.specs.Faults.{Counts};
ghost use Rattle.irq_pm.specs.SleepLog.{moves_of};
ghost use Rattle.irq_pm.specs.SleptBoard.{is_for_sleep};
ghost use Rattle.irq_sleeper.specs.Seen.{log_of};
ghost use Rattle.play_report.specs.Failing.{is_printing, is_write_fault};
ghost use Rattle.sleep_play.specs.Played.{IsLaidOut, IsLongerOf, SleepsBoard, TellsStep};

use crate::ended::SleepPlay;
use crate::lengthening::{Longer, NoLonger, lengthen};
use board_def::{Board, Layout};
use board_report::ReportRoom;
use callbacks::Handler;
use domain_hier::Hierarchy;
use irq_base::{LineNo, NoMemory};
use irq_io::Sink;
use irq_line::{IrqLine, MakesLine};
use irq_sleeper::Sleeper;
use line_makers::{MakesDomainLine, OverDomains};
use play_report::{PlayedBoard, report, unplayed};
use std::alloc::Global;

/// The board can't sleep with these lines armed.
#[derive(Clone, Copy, PartialEq, Eq)]
pub struct NotForSleep;

/// Lays the board's lines over its domains, plays the board's picks, puts the lines to sleep, lets
/// devices ask until an interrupt of an armed line wakes the machine or nothing is left to happen,
/// opens the lines, plays the board on to its end, and prints the play. The maker makes each line;
/// handlers are called as they are due. No memory is taken once a row is printed. The only
/// error is an armed line that takes no part or is masked at once by a disable, or a board without
/// room for the system's driver and its calls.
pub fn sleep_and_print<O: Sink, M: MakesDomainLine, H: Handler>(
    alloc: Global,
    board: Board,
    armed: &[LineNo],
    maker: &M,
    handlers: &mut H,
    out: &mut O,
) -> Result<PlayedBoard, NotForSleep>
    ensures refused { OnErr result (is_for_sleep board armed.now ≡ false) }
    ensures quiet { OnErr result (out.new ≡ out.old) }
    ensures unheard { OnErr result (Heard H.hears [] handlers.old handlers.new) }
    ensures plays { IfOk result (λ p. SleepsBoard board armed.now
        (λ runs. Heard H.hears runs handlers.old handlers.new) p.reports.reports
        (O.written out.old) (O.written out.new) p.end) }
    ensures step { IfOk result (λ p.
        TellsStep M.Line.may_want board armed.now p.reports.reports p.end) }
    ensures emptied { IfOk result (λ p. OnOk p.end (O.kept out.new ≡ [])) }
    ensures write_fault { IfOk result (λ p. Counts (O.faults out.old) (O.faults out.new)
        (is_write_fault p.end)) }
    ensures silent { IfOk result (λ p. is_printing p.end ≡ false → out.new ≡ out.old) }
{
    match lengthen(alloc, board, armed) {
        Ok(longer) => Ok(play_longer(alloc, longer, armed, maker, handlers, out)),
        Err(NoLonger::NotForSleep) => Err(NotForSleep),
        Err(NoLonger::NoMemory) => Ok(unplayed(alloc)),
    }
}

/// Plays the sleep of the board, which has the system's driver, and prints it.
fn play_longer<O: Sink, M: MakesDomainLine, H: Handler>(
    alloc: Global,
    longer: Longer,
    armed: &[LineNo],
    maker: &M,
    handlers: &mut H,
    out: &mut O,
) -> PlayedBoard
    requires { IsLaidOut longer.board longer.domains longer.layout }
    ensures plays { (b : BoardSeen) → IsLongerOf b armed.now longer.board
        → SleepsBoard b armed.now (λ runs. Heard H.hears runs handlers.old handlers.new)
        result.reports.reports (O.written out.old) (O.written out.new) result.end }
    ensures step { (b : BoardSeen) → IsLongerOf b armed.now longer.board
        → TellsStep M.Line.may_want b armed.now result.reports.reports result.end }
    ensures emptied { OnOk result.end (O.kept out.new ≡ []) }
    ensures write_fault { Counts (O.faults out.old) (O.faults out.new) (is_write_fault result.end) }
    ensures silent { is_printing result.end ≡ false → out.new ≡ out.old }
{
    let Longer {
        board,
        domains,
        layout,
    } = longer;
    play_laid(alloc, &board, &domains, layout, armed, maker, handlers, out)
}

/// The same of a board that is laid over these domains.
fn play_laid<O: Sink, M: MakesDomainLine, H: Handler>(
    alloc: Global,
    board: &Board,
    domains: &Hierarchy,
    layout: Layout,
    armed: &[LineNo],
    maker: &M,
    handlers: &mut H,
    out: &mut O,
) -> PlayedBoard
    requires { IsLaidOut board.now domains.now layout }
    ensures plays { (b : BoardSeen) → IsLongerOf b armed.now board.now
        → SleepsBoard b armed.now (λ runs. Heard H.hears runs handlers.old handlers.new)
        result.reports.reports (O.written out.old) (O.written out.new) result.end }
    ensures step { (b : BoardSeen) → IsLongerOf b armed.now board.now
        → TellsStep M.Line.may_want b armed.now result.reports.reports result.end }
    ensures emptied { OnOk result.end (O.kept out.new ≡ []) }
    ensures write_fault { Counts (O.faults out.old) (O.faults out.new) (is_write_fault result.end) }
    ensures silent { is_printing result.end ≡ false → out.new ≡ out.old }
{
    let maker = OverDomains::of_board(maker, domains, board);
    match play_sleep(alloc, board, layout, armed, &maker, handlers) {
        Ok((play, room)) => report(board, play, room, out),
        Err(NoMemory) => unplayed(alloc),
    }
}

/// Has the maker make the lines of the board with the system's driver, and plays the sleep. The
/// only error is `NoMemory` for all but the steps of the play.
fn play_sleep<'b, L: IrqLine, M: MakesLine<L>, H: Handler>(
    alloc: Global,
    board: &'b Board,
    layout: Layout,
    armed: &'b [LineNo],
    maker: &M,
    handlers: &mut H,
) -> Result<(SleepPlay<'b, L>, ReportRoom), NoMemory>
    requires layout { layout ≡ layout_of board.now }
    requires makes { MakesAll (M.makes maker.now) board.now (layout_of board.now) }
    ensures board { IfOk result (λ p. p.0.sleeper.system.board ≡ board.now) }
    ensures armed { IfOk result (λ p. p.0.sleeper.watch.armed ≡ armed.now) }
    ensures room { IfOk result (λ p. HasRoom (length board.now.lines) p.1) }
    ensures heard { IfOk result (λ p. Heard H.hears
        (runs_of board.now (moves_of (reverse (log_of p.0.sleeper)))) handlers.old handlers.new) }
    ensures unheard { OnErr result (Heard H.hears [] handlers.old handlers.new) }
{
    let room = ReportRoom::new(alloc, board)?;
    let mut sleeper = Sleeper::new(alloc, board, layout, armed, maker)?;
    let stop = sleeper.play(board.picks(), handlers);
    let end = sleeper.end_after(stop);
    Ok((SleepPlay { sleeper, end }, room))
}
