//! What a survey tells.

use irq_base::Entry;
use line_wanted::Left;

/// One way in which the line can be left, where nothing more is due on it.
#[derive(Clone, Copy)]
pub struct RestRow {
    /// How it is left.
    pub left: Left,
    /// How many entries a shortest legal history has that leaves it so.
    pub len: u32,
    /// In how many of the states it is left so.
    pub states: u32,
}

/// One row that can come.
#[derive(Clone, Copy)]
pub struct EntryRow {
    /// The row's entry.
    pub entry: Entry,
    /// How many entries a shortest legal history has that ends with it, this one among them.
    pub len: u32,
}

/// All that can come on a line.
#[derive(Drop)]
pub struct Survey {
    /// How many states were found.
    pub states: u32,
    /// How many pairs of a state that was looked at and an entry that is due in it.
    pub moves: u64,
    /// In how many of the states that were looked at nothing is due.
    pub rest: u32,
    /// If the search was cut: what comes after each legal history of fewer entries was looked at.
    pub cut: Option<u32>,
    /// The ways in which the line can be left, each once, in the order of the lengths.
    pub rests: Vec<RestRow>,
    /// The rows that can come, each once, in the order of the lengths.
    pub rows: Vec<EntryRow>,
}
