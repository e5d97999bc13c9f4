//! The text of a log is judged.
ghost use Rattle.std.specs.Prelude.{◌≡◌, ◌≤◌, true, length, IfOk};
ghost use Rattle.std.specs.Option.{option_map};
ghost use Rattle.board_def.specs.Layout.{layout_of};
ghost use Rattle.log_check.specs.Judging.{Concludes, HaveRoom, JudgesFirst, MakesEach, PassesOver};
ghost use Rattle.log_check.specs.Verdicts.{ChecksLog};
ghost use Rattle.log_read.specs.LogOf.{begins_with_hash};

use crate::heads::read_head;
use crate::line_judge::LineJudge;
use crate::making::make_judges;
use crate::verdict::Verdict;
use board_def::{Board, Layout};
use irq_base::NoMemory;
use irq_line::{IrqLine, MakesLine};
use log_read::{cut_row, place_of};
use log_text::KeptRows;
use std::alloc::Global;

/// Judges the text of a log of the board, row by row. Lines do the judging: `L` is any type of
/// lines, and `maker` makes one for each line that takes part.
///
/// # Errors
///
/// `NoMemory` if memory was needed and refused.
pub fn check_log<L: IrqLine, M: MakesLine<L>>(
    alloc: Global,
    board: &Board,
    layout: &Layout,
    maker: &M,
    log: &[u8],
) -> Result<Verdict, NoMemory>
    requires layout { layout.now ≡ layout_of board.now }
    requires makes { MakesEach (M.makes maker.now) board.now }
    requires few { length log.now ≤ 67108864 }
    ensures { IfOk result (λ verdict. ChecksLog board.now log.now verdict) }
{
    board.is_board();
    let mut judges = make_judges::<L, M>(alloc, board, layout, maker)?;
    let mut kept = KeptRows::new();
    let mut rest = log;
    let mut row: u32 = 0;
    while !rest.is_empty() {
        row += 1;
        let Some(after) = judge_first(&mut judges, board, &mut kept, rest)? else {
            return Ok(Verdict::Malformed { row });
        };
        rest = after;
    }
    Ok(verdict_of(&judges, board))
}

/// Judges the first row of a text that isn't empty. Answers what follows it; none if something is
/// wrong with the row.
fn judge_first<'t, L: IrqLine>(
    judges: &mut Vec<LineJudge<L>>,
    board: &Board,
    kept: &mut KeptRows,
    text: &'t [u8],
) -> Result<Option<&'t [u8]>, NoMemory>
    requires some { 1 ≤ length text.now }
    requires many { length judges.old.items ≡ length board.now.lines }
    requires room { HaveRoom judges.old.items }
    ensures { IfOk result (λ after. JudgesFirst board.now text.now (option_map (λ t. t.now) after)
        judges.old.items judges.new.items) }
{
    board.is_board();
    if begins_with_hash(text) {
        return Ok(pass_over(text));
    }
    let Some((line, actor)) = read_head(text) else {
        return Ok(None);
    };
    let Some(place) = place_of(board, line) else {
        return Ok(None);
    };
    judges[place].take(kept, board, line, actor, text)
}

fn begins_with_hash(text: &[u8]) -> bool
    ensures { result ≡ begins_with_hash text.now }
{
    match text.first() {
        Some(byte) => *byte == b'#',
        None => false,
    }
}

/// What follows the first row of a text that begins with `#`; none if the row has no line feed.
fn pass_over(text: &[u8]) -> Option<&[u8]>
    requires some { 1 ≤ length text.now }
    requires hash { begins_with_hash text.now ≡ true }
    ensures { PassesOver text.now (option_map (λ t. t.now) result) }
{
    let (_, after) = cut_row(text)?;
    Some(after)
}

/// The verdict of the judges, if each row is a row of a log: the first of them in the board's order
/// that has met an entry that wasn't due.
fn verdict_of<L: IrqLine>(judges: &[LineJudge<L>], board: &Board) -> Verdict
    ensures { Concludes board.now judges.now result }
{
    for i in 0..judges.len() {
        let Some(entry) = judges[i].first() else {
            continue;
        };
        let Some(row) = board.line(i) else {
            continue;
        };
        return Verdict::Unlawful {
            line: row.line,
            entry,
        };
    }
    Verdict::Lawful
}
