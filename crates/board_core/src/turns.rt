//! What a turn did, and the call that a driver is at.
use irq_base::{Call, Entry, LineNo};

/// What a turn did.
#[derive(Clone, Copy, PartialEq, Eq)]
pub enum Turn {
    /// The actor added this entry to this line.
    Moved { line: LineNo, entry: Entry },
    /// The actor can't move, and nothing changed.
    NotYet,
}

/// The call that a driver is at.
#[derive(Clone, Copy, PartialEq, Eq)]
pub struct DueCall {
    /// The line that it is about.
    pub line: LineNo,
    /// The call.
    pub call: Call,
    /// How many of its entries are there.
    pub made: u32,
}
