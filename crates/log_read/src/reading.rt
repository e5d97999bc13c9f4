//! The text of a log.
ghost use Rattle.std.specs.Prelude.{◌≡◌, ℕ, ◌+◌, ◌<◌, ◌≤◌, true, false, [], ◌∷◌, ◌++◌, length};
ghost use Rattle.std.specs.Prelude.{map, codes, get_or, slice_get, slice_set, IfOk, OnOk, OnErr};
ghost use Rattle.std.specs.Prelude.{Some, MatchOption, All};
ghost use Rattle.std.specs.List.{position};
ghost use Rattle.board_def.specs.Rules.{has_line};
ghost use Rattle.board_def.specs.declared.rows.LineRow.{LineRow};
ghost use Rattle.log_read.specs.LogOf.{rows_of, is_whole, is_feed, is_passed_over, entries_of};
ghost use Rattle.log_read.specs.LogOf.{IsLogOf, IsRow};
ghost use Rattle.log_read.specs.Adding.{Adds, IsPlaceOf, Judges};

use crate::rows::read_row;
use crate::versions::may_have;
use board_def::Board;
use irq_base::{Entry, History, LineNo, Logs, NoMemory};
use memchr::memchr;
use std::alloc::Global;
use thiserror::Error;

/// Why a text isn't read.
#[derive(Clone, Copy, Debug, PartialEq, Eq, Error)]
pub enum LogRefused {
    /// The first row, counted from 1, that is neither passed over nor the row of an entry of a line
    /// of the board; nor is it one if only logs of later versions have such rows.
    #[error("malformed {row}")]
    Malformed { row: u32 },
    /// Memory was needed and refused.
    #[error("out of memory")]
    NoMemory,
}

impl From<NoMemory> for LogRefused {
    ghost use Rattle.std.specs.Prelude.{◌≡◌};
    ghost use Rattle.log_read.specs.declared.reading.LogRefused.TheVariants as refusals;

    ghost from_gives = { λ _ refusal. refusal ≡ refusals.NoMemory };

    fn from(_refused: NoMemory) -> LogRefused {
        LogRefused::NoMemory
    }
}

/// Reads the text of a log: one history for each line of the board, in its order. Rows that begin
/// with `#` are passed over. Memory is taken for the histories alone.
///
/// # Errors
///
/// `Malformed` with the number of the first row that isn't passed over and isn't the row of an
/// entry of a line of the board, or is one that only logs of later versions have. Rows are
/// counted from 1, and those passed over count too.
/// `NoMemory` if memory was refused.
pub fn read_log(alloc: Global, board: &Board, bytes: &[u8]) -> Result<Logs, LogRefused>
    requires { length bytes.now ≤ 67108864 }
    ensures log { IsLogOf board.now bytes.now result }
    ensures each { IfOk result (λ logs. length logs ≡ length board.now.lines) }
    ensures few { IfOk result (λ logs. All (λ h. length h.entries ≤ length bytes.now) logs) }
{
    board.is_board();
    let mut logs = empty_logs(alloc, board)?;
    let mut rest = bytes;
    let mut row: u32 = 0;
    while !rest.is_empty() {
        row += 1;
        let Some((text, after)) = cut_row(rest) else {
            return Err(LogRefused::Malformed { row });
        };
        if !add_row(&mut logs, board, text)? {
            return Err(LogRefused::Malformed { row });
        }
        rest = after;
    }
    Ok(logs)
}

/// An empty history for each line.
fn empty_logs(alloc: Global, board: &Board) -> Result<Logs, NoMemory>
    ensures { IfOk result (λ logs. entries_of logs ≡ map (λ (row : LineRow). []) board.now.lines) }
{
    let mut logs = Logs::new(alloc);
    for _ in 0..board.lines_len() {
        logs.push(History::with_room(alloc, 0)?)?;
    }
    Ok(logs)
}

/// The first row of a text that isn't empty, without its line feed, and what follows it; nothing if
/// the text has no line feed.
pub fn cut_row(text: &[u8]) -> Option<(&[u8], &[u8])>
    requires { 1 ≤ length text.now }
    ensures rows { MatchOption result
        ((rows_of text.now ≡ text.now ∷ []) × (is_whole text.now ≡ false))
        (λ x. rows_of text.now ≡ (x.0.now ++ codes "\n") ∷ rows_of x.1.now) }
    ensures shorter { MatchOption result (Unit {0}) (λ x. length x.1.now + 1 ≤ length text.now) }
{
    match line_feed(text) {
        Some(end) => Some((&text[..end], &text[end + 1..])),
        None => None,
    }
}

/// The place of the first line feed.
#[tactic(auto, using(crate::proofs::Places::feed_found))]
fn line_feed(text: &[u8]) -> Option<usize>
    ensures { result ≡ position is_feed text.now }
{
    memchr(b'\n', text)
}

/// Reads a row, which stands here without its line feed, and adds its entry to its line's history.
/// Answers whether nothing is wrong with it.
fn add_row(logs: &mut Logs, board: &Board, row: &[u8]) -> Result<bool, NoMemory>
    requires { length logs.old ≡ length board.now.lines }
    ensures { IfOk result
        (λ fine. Judges board.now (row.now ++ codes "\n") fine (entries_of logs.old)
        (entries_of logs.new)) }
{
    if begins_with_hash(row) {
        return Ok(true);
    }
    let Some((line, entry)) = read_row(row) else {
        return Ok(false);
    };
    if !may_have(board, &entry) {
        return Ok(false);
    }
    let Some(place) = place_of(board, line) else {
        return Ok(false);
    };
    add(logs, place, entry)?;
    Ok(true)
}

fn begins_with_hash(row: &[u8]) -> bool
    ensures { result ≡ is_passed_over (row.now ++ codes "\n") }
{
    match row.first() {
        Some(b) => *b == b'#',
        None => false,
    }
}

/// The place of the line among the board's lines, counted from 0; none if the board has no such
/// line. Lines are mostly numbered from 1 on.
pub fn place_of(board: &Board, line: LineNo) -> Option<usize>
    ensures { MatchOption result (has_line board.now.lines line ≡ false)
        (λ place. IsPlaceOf board.now.lines line place) }
{
    let likely = line.0.saturating_sub(1) as usize;
    if let Some(row) = board.line(likely)
        && row.line == line
    {
        return Some(likely);
    }
    board.place_of_line(line)
}

/// Adds the entry to the history at index `place`.
fn add(logs: &mut Logs, place: usize, entry: Entry) -> Result<(), NoMemory>
    requires { place < length logs.old }
    ensures { OnOk result (Adds place entry (entries_of logs.old) (entries_of logs.new)) }
{
    let history = logs.history_mut(place);
    if history.spare() == 0 {
        history.reserve(1)?;
    }
    history.push(entry);
    Ok(())
}
