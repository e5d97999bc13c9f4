//! What the chip of a signal cell keeps.
use irq_base::{CpuNo, Trigger};

/// The five properties of the cell, its five marks, whether the chip is active, and where it is
/// aimed.
#[derive(Clone, Copy)]
pub struct CellMarks {
    /// Whether it presents edges or a level.
    pub trigger: Trigger,
    /// An edge that comes while it is masked is stored.
    pub keeps: bool,
    /// Masking takes back into store what was sent.
    pub recalls: bool,
    /// It can be made to send an edge again.
    pub retriggers: bool,
    /// A level that was accepted isn't presented again before its end of interrupt.
    pub serves: bool,
    /// The mask is closed.
    pub masked: bool,
    /// An edge is stored.
    pub stored: bool,
    /// An edge is sent.
    pub sent: bool,
    /// The level is high.
    pub high: bool,
    /// An interrupt was accepted that hasn't ended.
    pub in_service: bool,
    /// Whether the domains have activated the interrupt.
    pub active: bool,
    /// The processor that it is aimed at.
    pub target: CpuNo,
}
