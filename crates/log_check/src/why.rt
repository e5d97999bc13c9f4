//! Why a line's history isn't legal: which row has its first entry that wasn't due, and what was
//! due in its place.
ghost use Rattle.std.specs.Prelude.{◌≡◌, ◌≤◌, ◌++◌, [], IfOk, IfSome, List, None, Option, Some};
ghost use Rattle.std.specs.Prelude.{ℕ, codes, length, slice_get};
ghost use Rattle.std.specs.List.{AllZip};
ghost use Rattle.std.specs.Option.{option_map};
ghost use Rattle.board_def.specs.Layout.{layout_of};
ghost use Rattle.board_def.specs.Seen.{BoardSeen};
ghost use Rattle.board_def.specs.declared.rows.LineRow.{LineRow};
ghost use Rattle.irq_base.specs.declared.lines.LineDef.{LineDef};
ghost use Rattle.log_check.specs.Judging.{HasRoom, MakesEach, Stands, part_at};
ghost use Rattle.log_check.specs.Why.{Explains, Finds, GrowsByOne, IsNew, IsPrintableDue, Tries};
ghost use Rattle.log_read.specs.LogOf.{IsRowOn, LineEntry, is_passed_over, rows_of, saying};

use crate::judging::step;
use crate::making::make_line;
use board_def::{Board, Layout};
use irq_base::{Entry, LineNo, NoMemory};
use irq_line::{IrqLine, MakesLine};
use line_obstacles::{Obstacle, TellsObstacles};
use log_read::{cut_row, place_of, read_row};
use std::alloc::Global;

/// What was due of the actor who made an entry that wasn't.
#[derive(Clone, Copy, PartialEq, Eq)]
pub enum DueThen {
    /// This entry.
    Entry(Entry),
    /// Nothing, and this stood in the actor's way; none if it had nothing to do.
    Nothing(Option<Obstacle>),
}

/// The first entry of a line that wasn't due.
#[derive(Clone, Copy, PartialEq, Eq)]
pub struct Undue {
    /// The number of its row in the log, counted from 1.
    pub row: u32,
    /// What was due in its place.
    pub due: DueThen,
}

/// Why the history of the board's line of this number isn't legal, as the text of a log of the
/// board says it; none if it is. The log is gone over once more, by this line alone.
///
/// # Errors
///
/// `NoMemory` if memory was needed and refused.
pub fn explain_log<L: TellsObstacles, M: MakesLine<L>>(
    alloc: Global,
    board: &Board,
    layout: &Layout,
    maker: &M,
    log: &[u8],
    number: LineNo,
) -> Result<Option<Undue>, NoMemory>
    requires layout { layout.now ≡ layout_of board.now }
    requires makes { MakesEach (M.makes maker.now) board.now }
    requires few { length log.now ≤ 67108864 }
    ensures explains { (place : ℕ) (row : LineRow) (said : List LineEntry)
        → slice_get board.now.lines place ≡ Some row → row.line ≡ number
        → AllZip (IsRowOn board.now) (saying (rows_of log.now)) said
        → IfOk result (Explains (part_at board.now row place) number (rows_of log.now) said) }
    ensures printable { IfOk result (λ undue. IfSome undue (λ u. IsPrintableDue u.due)) }
{
    board.is_board();
    let Some(place) = place_of(board, number) else {
        return Ok(None);
    };
    let mut defs = board.line_defs(alloc)?;
    let fresh = make_line::<L, M>(alloc, layout.get(place), &mut defs[place], maker)?;
    find_undue(fresh, number, log)
}

/// Why the line's history isn't legal, as the text of a log says it; none if it is. Nothing has
/// happened to the line; there is none where it takes no part.
///
/// # Errors
///
/// `NoMemory` if memory was needed and refused.
fn find_undue<L: TellsObstacles>(
    fresh: Option<L>,
    number: LineNo,
    log: &[u8],
) -> Result<Option<Undue>, NoMemory>
    requires new { IsNew (option_map L.seen fresh) }
    requires few { length log.now ≤ 67108864 }
    ensures explains { (part : Option LineDef) (board : BoardSeen) (said : List LineEntry)
        → Stands part (option_map L.seen fresh) None []
        → AllZip (IsRowOn board) (saying (rows_of log.now)) said
        → IfOk result (Explains part number (rows_of log.now) said) }
    ensures printable { IfOk result (λ undue. IfSome undue (λ u. IsPrintableDue u.due)) }
{
    let mut line = fresh;
    let mut rest = log;
    let mut row: u32 = 0;
    while !rest.is_empty() {
        row += 1;
        let Some((bytes, after)) = cut_row(rest) else {
            return Ok(None);
        };
        if let Some(due) = undue_in(&mut line, number, bytes)? {
            return Ok(Some(Undue { row, due }));
        }
        rest = after;
    }
    Ok(None)
}

/// What was due in the place of the entry that the row says, if that is the line's; none if it was
/// due itself, and then the line has it. The row stands here without its line feed.
fn undue_in<L: TellsObstacles>(
    line: &mut Option<L>,
    number: LineNo,
    row: &[u8],
) -> Result<Option<DueThen>, NoMemory>
    requires { IfSome (option_map L.seen line.old) HasRoom }
    ensures finds { IfOk result (λ due. Finds (row.now ++ codes "\n") number due
        (option_map L.seen line.old) (option_map L.seen line.new)) }
    ensures grows { IfOk result (λ due. GrowsByOne (option_map L.seen line.old)
        (option_map L.seen line.new)) }
    ensures printable { IfOk result (λ due. IfSome due IsPrintableDue) }
{
    if begins_with_hash(row) {
        return Ok(None);
    }
    let Some((of, entry)) = read_row(row) else {
        return Ok(None);
    };
    if of != number {
        return Ok(None);
    }
    match line {
        Some(line) => due_then(line, entry),
        None => Ok(Some(DueThen::Nothing(None))),
    }
}

fn begins_with_hash(row: &[u8]) -> bool
    ensures { result ≡ is_passed_over (row.now ++ codes "\n") }
{
    match row.first() {
        Some(b) => *b == b'#',
        None => false,
    }
}

/// What is due of the entry's actor, if it isn't the entry; none if it is, and then the line has
/// it.
fn due_then<L: TellsObstacles>(line: &mut L, entry: Entry) -> Result<Option<DueThen>, NoMemory>
    requires { HasRoom (L.seen line.old) }
    ensures tries { IfOk result
        (λ due. Tries (L.seen line.old) entry due (L.seen line.new)) }
    ensures grows { IfOk result (λ due. GrowsByOne (Some (L.seen line.old))
        (Some (L.seen line.new))) }
    ensures printable { IfOk result (λ due. IfSome due IsPrintableDue) }
{
    line.is_sound();
    let actor = entry.actor();
    let due = step(line, actor)?;
    if due == Some(entry) {
        return Ok(None);
    }
    match due {
        Some(due) => Ok(Some(DueThen::Entry(due))),
        None => Ok(Some(DueThen::Nothing(line.obstacle(actor)))),
    }
}
