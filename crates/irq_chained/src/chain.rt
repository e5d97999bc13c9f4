//! The steps of a chain, and what a turn did.
use irq_base::{CpuNo, Entry, LineNo};

/// One step of a play of lines behind a demultiplexer.
#[derive(Clone, Copy, PartialEq, Eq)]
pub enum ChainEntry {
    /// The processor enters a chain (`chained_irq_enter`): the parent is masked and acknowledged,
    /// and the status is read. Bit k of the status is set if the child at place k, of the lines
    /// that take part, has a take due.
    Enter { cpu: CpuNo, status: u32 },
    /// An entry of a child, by whatever actor.
    Child { line: LineNo, entry: Entry },
    /// The processor leaves the chain (`chained_irq_exit`): the parent is unmasked.
    Exit { cpu: CpuNo },
}

/// What a turn did.
#[derive(Clone, Copy, PartialEq, Eq)]
pub enum ChainTurn {
    /// The actor made this step.
    Moved(ChainEntry),
    /// The actor has no step, and nothing changed.
    NotYet,
}
