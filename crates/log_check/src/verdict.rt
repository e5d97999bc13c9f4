//! The verdict on a log.
use irq_base::LineNo;

/// The verdict on a log of a board.
#[derive(Clone, Copy, PartialEq, Eq)]
pub enum Verdict {
    /// Each row is a row of a log. Each entry was due of its actor after the entries before it on
    /// its line, and a line that takes no part has no entries.
    Lawful,
    /// Each row is a row of a log. This line is the first of the board whose history isn't legal,
    /// and `entry` is the number of its first entry, counted from 1, that wasn't due.
    Unlawful { line: LineNo, entry: u32 },
    /// This row, counted from 1, is the first that isn't a row of a log.
    Malformed { row: u32 },
}
