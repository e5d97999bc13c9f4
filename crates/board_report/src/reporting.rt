//! Reports of a board's lines.
ghost use Rattle.std.specs.Prelude.{◌≡◌, ◌≤◌, ◌<◌, ◌+◌, [], IfOk, All, length, map, reverse};
ghost use Rattle.board_core.specs.Seen.{board_lines};
ghost use Rattle.board_report.specs.Headline.{told_by};
ghost use Rattle.board_report.specs.Reporting.{AreOfBoard, HasRoom, IsEmptyHistory, KeepRoom};
ghost use Rattle.board_report.specs.Reporting.{TakesFirst, TakesRoom, from_last, history_among};
ghost use Rattle.board_report.specs.Reporting.{is_first};

use board_def::Board;
use irq_base::{History, LineNo, LineReport, NoMemory, Reports};
use irq_line::IrqLine;
use std::alloc::Global;

/// Room for one report for each line of a board, so that nothing is refused once something is
/// printed.
#[derive(Drop)]
pub struct ReportRoom {
    reports: Reports,
    /// An empty history for each line, for those that the layout refuses.
    empty: Vec<History>,
}

impl ReportRoom {
    /// Room for the reports of the board's lines.
    pub fn new(alloc: Global, board: &Board) -> Result<ReportRoom, NoMemory>
        ensures { IfOk result (HasRoom (length board.now.lines)) }
    {
        let mut reports = Reports::new(alloc);
        reports.reserve(board.lines_len())?;
        let empty = empty_histories(alloc, board.lines_len())?;
        Ok(ReportRoom { reports, empty })
    }

    /// One report for each line of the board, in its order: a line that takes part hands out its
    /// history; a line that the layout refuses has an empty one.
    pub fn fill<L: IrqLine>(self, board: &Board, mut lines: Vec<L>) -> Reports
        requires room { HasRoom (length board.now.lines) self }
        requires lines { AreOfBoard board.now (board_lines (map L.seen lines.items)) }
        ensures told { map told_by result.reports
            ≡ map (history_among (board_lines (map L.seen lines.items))) board.now.lines }
        ensures room { KeepRoom (map L.seen lines.items) result.reports }
    {
        board.is_board();
        let ReportRoom {
            mut reports,
            mut empty,
        } = self;
        lines.reverse();
        for i in 0..board.lines_len() {
            let Some(row) = board.line(i) else {
                unreachable!();
            };
            let Some(spare) = empty.pop() else {
                unreachable!();
            };
            let line = row.line;
            let history = take_history(&mut lines, line, spare);
            reports.push(LineReport { line, history }).unwrap();
        }
        reports
    }
}

/// A list of `n` empty histories.
fn empty_histories(alloc: Global, n: usize) -> Result<Vec<History>, NoMemory>
    ensures count { IfOk result (λ all. length all.items ≡ n) }
    ensures empty { IfOk result (λ all. All IsEmptyHistory all.items) }
{
    let mut all = Vec::new(alloc);
    for _ in 0..n {
        let history = History::with_room(alloc, 0)?;
        all.push(history)?;
    }
    Ok(all)
}

/// Takes the last line away if it has this number, and answers its history; else answers the empty
/// history.
fn take_history<L: IrqLine>(lines: &mut Vec<L>, number: LineNo, empty: History) -> History
    requires { IsEmptyHistory empty }
    ensures first { TakesFirst (is_first number (from_last (map L.seen lines.old.items)))
        (from_last (map L.seen lines.old.items)) (from_last (map L.seen lines.new.items))
        result.entries }
    ensures room { TakesRoom (is_first number (from_last (map L.seen lines.old.items)))
        (reverse (map L.seen lines.old.items)) (reverse (map L.seen lines.new.items))
        result.spare }
{
    if !is_last(lines, number) {
        return empty;
    }
    match lines.pop() {
        Some(line) => line.into_history(),
        None => empty,
    }
}

/// Whether the last of the lines has this number.
fn is_last<L: IrqLine>(lines: &[L], number: LineNo) -> bool
    ensures { result ≡ is_first number (from_last (map L.seen lines.now)) }
{
    match lines.last() {
        Some(line) => number == line.definition().line,
        None => false,
    }
}
