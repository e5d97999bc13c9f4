//! What stands in the log of a sleep.
use irq_base::{Entry, LineNo};

/// A step on a line, or a mark between the steps.
#[derive(Clone, Copy, PartialEq, Eq)]
pub enum SleepEntry {
    /// This entry was added to this line.
    Step { line: LineNo, entry: Entry },
    /// The lines are disabled, and nothing is at work on them (`suspend_device_irqs` has returned,
    /// `kernel/irq/pm.c`).
    Asleep,
    /// The machine wakes, by an interrupt of this line; none if nothing was left to happen.
    Wake { line: Option<LineNo> },
}
