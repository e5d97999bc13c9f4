//! Where the wake stands.
use irq_base::LineNo;

/// The wake, among the moves of a log.
#[derive(Clone, Copy, PartialEq, Eq)]
pub struct WakeMark {
    /// How many moves stand before it.
    pub at: usize,
    /// The line that woke the machine; none if nothing was left to happen.
    pub line: Option<LineNo>,
}
