//! Reads the log of a line from the text of its file: the text of a board of one line, a row `---`,
//! and the log of that line.
ghost use Rattle.std.specs.Prelude.{◌≤◌, length, vec_len};

use anyhow::{Context, Result, bail, ensure};
use board_def::Board;
use board_text::read_board;
use irq_base::{Entry, LineDef, Logs, NoMemory};
use log_read::read_log;
use std::alloc::Global;
use std::fmt;

/// The most processors of a line that is judged.
const MOST_CPUS: u32 = 32;
/// The most devices of a line that is judged.
const MOST_DEVICES: usize = 256;
/// The most entries of a line that is judged.
const MOST_ENTRIES: usize = 100_000_000;
/// The most bytes of a log.
const LONGEST_LOG: usize = 67_108_864;

/// A line and its entries, the oldest first, of sizes that can be judged.
#[derive(Drop)]
pub struct LineLog {
    pub def: LineDef,
    pub entries: Vec<Entry>,
    ghost cpus: { def.cpus ≤ 32 },
    ghost devices: { length def.devices ≤ 256 },
    ghost few: { vec_len entries ≤ 100000000 },
}

/// The line and the log that the text of a file has.
///
/// # Errors
///
/// If the text lacks a part, if the board doesn't have exactly one line, if something is larger
/// than what can be judged, or if memory is refused.
pub fn read_line_log(alloc: Global, text: &str) -> Result<LineLog> {
    match parts_of(text, "---\n") {
        Some((head, rows)) => read_parts(alloc, head, rows),
        None => bail!("no row `---`"),
    }
}

/// The line of the board's text, and the entries of the log's text.
fn read_parts(alloc: Global, head: &str, rows: &str) -> Result<LineLog> {
    let board = board_of(alloc, head)?;
    let entries = entries_in(alloc, &board, rows)?;
    let def = line_of(alloc, &board)?;
    sized(def, entries)
}

/// The entries of the log's text.
fn entries_in(alloc: Global, board: &Board, rows: &str) -> Result<Vec<Entry>> {
    match logs_of(alloc, board, rows) {
        Some(logs) => Ok(entries_of(alloc, &logs)?),
        None => bail!("no log"),
    }
}

/// The text before the first such row, and the text after it.
fn parts_of<'a>(text: &'a str, row: &str) -> Option<(&'a str, &'a str)> {
    text.split_once(row)
}

fn board_of(alloc: Global, text: &str) -> Result<Board> {
    or_told(read_board(alloc, text.as_bytes()))
}

/// What was read, or an error with the text of the refusal.
fn or_told<T, E: fmt::Display + Drop>(read: Result<T, E>) -> Result<T> {
    match read {
        Ok(value) => Ok(value),
        Err(refused) => bail!("{refused}"),
    }
}

fn logs_of(alloc: Global, board: &Board, rows: &str) -> Option<Logs> {
    if rows.len() > LONGEST_LOG {
        return None;
    }
    read_log(alloc, board, rows.as_bytes()).ok()
}

/// The line of the board.
fn line_of(alloc: Global, board: &Board) -> Result<LineDef> {
    ensure!(board.lines_len() == 1, "not one line");
    board.line_defs(alloc)?.pop().context("no line")
}

/// The entries of the one log.
fn entries_of(alloc: Global, logs: &Logs) -> Result<Vec<Entry>, NoMemory> {
    let mut entries = Vec::new(alloc);
    if let Some(history) = logs.get(0) {
        for i in 0..history.len() {
            if let Some(entry) = history.get(i) {
                entries.push(entry)?;
            }
        }
    }
    Ok(entries)
}

/// The line and its entries, if they aren't too many.
fn sized(def: LineDef, entries: Vec<Entry>) -> Result<LineLog> {
    ensure!(def.cpus <= MOST_CPUS, "too many processors");
    ensure!(def.devices.len() <= MOST_DEVICES, "too many devices");
    ensure!(entries.len() <= MOST_ENTRIES, "too many entries");
    Ok(LineLog { def, entries })
}
