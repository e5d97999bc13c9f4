//! Reading a text to its end.
ghost use Rattle.std.specs.Prelude.{◌≡◌, ◌≤◌, length};
ghost use Rattle.std.specs.List.{list_any};
ghost use Rattle.board_words.specs.TextLines.{text_lines};
ghost use Rattle.board_stated.specs.TextOf.{board_of_text, has_words, fault_without_statement};
ghost use Rattle.board_stated.specs.TextOf.{whole};
ghost use Rattle.board_text.specs.Given.{Gives, ReadsLines, ReadsText};

use crate::reader::Reader;
use board_def::Board;
use board_words::{BoardFault, FaultKind, StatementRefused, TextLines, Words, has_bad_byte};
use std::alloc::Global;
use thiserror::Error;

/// The most bytes of a text.
pub const LONGEST_TEXT: usize = 1_048_576;

/// Why there is no board.
#[derive(Clone, Copy, Debug, PartialEq, Eq, Error)]
pub enum BoardRefused {
    /// The text's first fault.
    #[error("{0}")]
    Fault(BoardFault),
    /// Memory was needed and refused.
    #[error("out of memory")]
    NoMemory,
}

/// Reads the text of a board, at most `LONGEST_TEXT` bytes: the board that it states, or its first
/// fault, or that memory was refused. The time is linear in the bytes and in the picks, but for a
/// count of the answers so far, at most 65,536, by each statement of answers.
pub fn read_board(alloc: Global, bytes: &[u8]) -> Result<Board, BoardRefused>
    ensures exact { Gives (board_of_text bytes.now) result }
{
    let reader = read_text(alloc, bytes)?;
    match reader.end() {
        Ok(board) => Ok(board),
        Err(kind) => Err(whole(kind)),
    }
}

/// Reads all text lines of a text that isn't too long and has a statement.
fn read_text(alloc: Global, bytes: &[u8]) -> Result<Reader, BoardRefused>
    ensures { ReadsText bytes.now result }
{
    if bytes.len() > LONGEST_TEXT {
        return Err(whole(FaultKind::TooLong));
    }
    if !has_statement(bytes) {
        return Err(fault_at(1, fault_without_statement(bytes)));
    }
    read_lines(alloc, bytes)
}

/// Whether a text line has words.
fn has_statement(bytes: &[u8]) -> bool
    ensures { result ≡ list_any has_words (text_lines bytes.now) }
{
    let mut lines = TextLines::new(bytes);
    while let Some(line) = lines.next() {
        if !Words::of_line(line).is_empty() {
            return true;
        }
    }
    false
}

/// What is wrong with a text without a statement, at its first text line.
fn fault_without_statement(bytes: &[u8]) -> FaultKind
    ensures { result ≡ fault_without_statement (text_lines bytes.now) }
{
    let mut lines = TextLines::new(bytes);
    match lines.next() {
        Some(line) if has_bad_byte(line) => FaultKind::BadByte,
        _ => FaultKind::NoHeader,
    }
}

/// Reads the text lines to the end, or up to the first that has a fault.
fn read_lines(alloc: Global, bytes: &[u8]) -> Result<Reader, BoardRefused>
    requires { length bytes.now ≤ 1048576 }
    ensures { ReadsLines (text_lines bytes.now) result }
{
    let mut reader = Reader::new(alloc);
    let mut rest = bytes;
    let mut at: u32 = 1;
    while !rest.is_empty() {
        match reader.read_line(alloc, rest) {
            Ok(after) => rest = after,
            Err(StatementRefused::Fault(kind)) => return Err(fault_at(at, kind)),
            Err(StatementRefused::NoMemory) => return Err(BoardRefused::NoMemory),
        }
        at += 1;
    }
    Ok(reader)
}

/// A fault of a text line.
fn fault_at(at: u32, kind: FaultKind) -> BoardRefused
    ensures { result ≡ BoardRefused.Fault (record { at = at; kind = kind }) }
{
    BoardRefused::Fault(BoardFault { at, kind })
}

/// A fault of the whole text.
fn whole(kind: FaultKind) -> BoardRefused
    ensures { result ≡ BoardRefused.Fault (whole kind) }
{
    fault_at(0, kind)
}
