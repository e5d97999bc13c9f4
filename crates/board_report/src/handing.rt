//! Hands out the histories of a board's lines.
ghost use Rattle.std.specs.Prelude.{◌≡◌, ◌≤◌, ℕ, All, length, map};
ghost use Rattle.irq_base.specs.declared.entries.Actor.{Actor};
ghost use Rattle.irq_base.specs.declared.numbers.LineNo.{LineNo};
ghost use Rattle.board_core.specs.Making.{AreSound};
ghost use Rattle.board_core.specs.Seen.{board_lines};
ghost use Rattle.board_play.specs.Hanging.{IsFirstHung, NobodyHangs};
ghost use Rattle.board_report.specs.Headline.{FullLog, Headline, SoFar};
ghost use Rattle.board_report.specs.Hung.{HungBoard};
ghost use Rattle.board_report.specs.Moving.{AreAtRest, HasNoRoom};
ghost use Rattle.board_report.specs.Reporting.{HasRoom, KeepRoom, entries_in};
ghost use Rattle.board_report.specs.Rows.{HasRows};
ghost use Rattle.board_report.specs.Summable.{IsSummable};

use crate::reporting::ReportRoom;
use board_core::System;
use board_def::Board;
use irq_base::Reports;
use irq_io::WriteFailed;
use irq_line::IrqLine;

/// What was printed, and is handed out.
#[derive(Drop)]
pub struct Printed {
    /// How the printing ended.
    pub end: Result<(), WriteFailed>,
    /// One report for each line of the board, in its order.
    pub reports: Reports,
}

/// Takes the histories out of the lines of the board's system, as they stand: one report for each
/// line of the board, in its order. The room is enough, so nothing is refused.
pub fn hand_out<L: IrqLine>(board: &Board, system: System<'_, L>, room: ReportRoom) -> Reports
    requires board { system.board ≡ board.now }
    requires room { HasRoom (length board.now.lines) room }
    ensures so_far { SoFar board.now (entries_in (board_lines system.entry.lines))
        result.reports }
    ensures done { AreAtRest board.now (board_lines system.entry.lines)
        → NobodyHangs (board_lines system.entry.lines)
        → Headline board.now (entries_in (board_lines system.entry.lines)) result.reports }
    ensures hung { (line : LineNo) (actor : Actor)
        → AreAtRest board.now (board_lines system.entry.lines)
        → IsFirstHung (board_lines system.entry.lines) line actor
        → HungBoard board.now (entries_in (board_lines system.entry.lines)) result.reports line
        actor }
    ensures full { (line : LineNo) (len : ℕ)
        → HasNoRoom board.now (board_lines system.entry.lines) line len
        → FullLog board.now (entries_in (board_lines system.entry.lines)) result.reports line len }
    ensures room { KeepRoom system.entry.lines result.reports }
    ensures rows { All HasRows result.reports }
    ensures few { length result.reports ≤ 64 }
    ensures summable { All IsSummable result.reports }
{
    board.is_board();
    system.is_kept();
    are_sound(system.lines());
    room.fill(board, system.take_lines())
}

/// What holds of each line at every moment.
fn are_sound<L: IrqLine>(lines: &[L])
    ensures { AreSound (map L.seen lines.now) }
{
    for i in 0..lines.len() {
        lines[i].is_sound();
    }
}
