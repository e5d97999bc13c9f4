//! The judge of one line's rows.
ghost use Rattle.std.specs.Prelude.{◌≡◌, ◌≤◌, None, Some, IfOk, IfSome, length, slice_get};
ghost use Rattle.std.specs.Option.{option_map};
ghost use Rattle.log_check.specs.Heads.{IsHead};
ghost use Rattle.log_check.specs.Judging.{Adds, Follows, HasRoom, Stops, Takes};
ghost use Rattle.log_text.specs.EntryWords.{IsPrintable};
ghost use Rattle.log_text.specs.Formed.{HasSmallNumbers, IsSmall};

use crate::comparing::strip_row;
use crate::judging::step;
use board_def::Board;
use irq_base::{Actor, Entry, History, LineNo, NoMemory};
use irq_line::IrqLine;
use log_read::{cut_row, may_have, read_row};
use log_text::KeptRows;
use std::marker::Model;

/// What has come of a line's rows so far. While each entry was due, the line has them all. There is
/// no line where it takes no part, and no entry of it is due.
#[derive(Drop)]
pub(crate) struct LineJudge<L: IrqLine> {
    line: Option<L>,
    // The number of the first entry that wasn't due, counted from 1; then the line is gone.
    first: Option<u32>,
}

impl<L: IrqLine> Model for LineJudge<L> {
    ghost use Rattle.std.specs.Option.{option_map};
    ghost use Rattle.log_check.specs.JudgeSeen.{JudgeSeen};

    ghost Value = { JudgeSeen };

    ghost view = { λ j. record { line = option_map L.seen j.line; first = j.first } };
}

impl<L: IrqLine> LineJudge<L> {
    /// The judge of a line to which nothing has happened; none for a line that takes no part.
    pub(crate) fn new(line: Option<L>) -> LineJudge<L>
        ensures line { result.line ≡ option_map L.seen line }
        ensures first { result.first ≡ None }
    {
        LineJudge { line, first: None }
    }

    /// The number, counted from 1, of the first entry that wasn't due; none if all were due.
    pub(crate) fn first(&self) -> Option<u32>
        ensures { result ≡ self.now.first }
    {
        self.first
    }

    /// Judges the first row of the text, whose entry can only be of this line and this actor.
    /// Answers what follows the row; none if it isn't the row of an entry that the board's log may
    /// have.
    pub(crate) fn take<'t>(
        &mut self,
        kept: &mut KeptRows,
        board: &Board,
        number: LineNo,
        actor: Actor,
        text: &'t [u8],
    ) -> Result<Option<&'t [u8]>, NoMemory>
        requires some { 1 ≤ length text.now }
        requires head { IsHead text.now number actor }
        requires room { IfSome self.old.line HasRoom }
        ensures { IfOk result
            (λ after. Takes board.now text.now number (option_map (λ t. t.now) after)
            self.old self.new) }
    {
        match &mut self.line {
            Some(line) => {
                let entry = line.history().len() as u32 + 1;
                match adds(line, kept, board, number, actor, text)? {
                    Some(after) => Ok(Some(after)),
                    None => Ok(self.stop(board, entry, text)),
                }
            }
            None => {
                let entry = self.first.unwrap_or(1);
                Ok(self.stop(board, entry, text))
            }
        }
    }

    /// Notes that the entry of this number isn't due, if the text's first row is that of an entry
    /// that the board's log may have. Answers what follows the row; none if it isn't such a row.
    #[inline(never)]
    fn stop<'t>(&mut self, board: &Board, entry: u32, text: &'t [u8]) -> Option<&'t [u8]>
        requires { 1 ≤ length text.now }
        ensures { Stops board.now text.now entry (option_map (λ t. t.now) result) self.new }
    {
        let (row, after) = cut_row(text)?;
        let (_, said) = read_row(row)?;
        if !may_have(board, &said) {
            return None;
        }
        self.line = None;
        self.first = Some(entry);
        Some(after)
    }
}

/// What follows the row of the entry which is due of the actor, if the text begins with it; then
/// the line has the entry.
fn adds<'t, L: IrqLine>(
    line: &mut L,
    kept: &mut KeptRows,
    board: &Board,
    number: LineNo,
    actor: Actor,
    text: &'t [u8],
) -> Result<Option<&'t [u8]>, NoMemory>
    requires { HasRoom (L.seen line.old) }
    ensures { IfOk result (λ after. Adds board.now text.now number actor
        (option_map (λ t. t.now) after)
        (L.seen line.old) (L.seen line.new)) }
{
    let place = line.history().len();
    let Some(entry) = step(line, actor)? else {
        return Ok(None);
    };
    if !may_have(board, &entry) {
        return Ok(None);
    }
    Ok(after_row_of(kept, number, line.history(), place, entry, text))
}

/// What follows the row of this entry of the line, which stands at index `place` of its history;
/// none if the text doesn't begin with it.
fn after_row_of<'t>(
    kept: &mut KeptRows,
    number: LineNo,
    history: &History,
    place: usize,
    entry: Entry,
    text: &'t [u8],
) -> Option<&'t [u8]>
    requires printable { IsPrintable entry }
    requires at { slice_get history.now.entries place ≡ Some entry }
    ensures number { IsSmall number.0 }
    ensures entry { HasSmallNumbers entry }
    ensures follows { Follows text.now number entry (option_map (λ t. t.now) result) }
{
    are_small(number, entry);
    strip_row(text, kept.row_at(number, history, place))
}

/// Each number of a row takes 32 bits.
fn are_small(number: LineNo, entry: Entry)
    ensures number { IsSmall number.0 }
    ensures entry { HasSmallNumbers entry }
{
    let _ = (number, entry);
}
