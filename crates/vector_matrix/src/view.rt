//! Vectors, and what is known of a claim. No value of `View` is made: it stands in contracts and in
//! the matrix's rule.
use irq_base::CpuNo;
use std::collections::LinkedList;

/// An interrupt vector: the processor that it belongs to, and its number there, 0 to 63 (`cpu` and
/// `bit` in `kernel/irq/matrix.c`).
#[derive(Clone, Copy, PartialEq, Eq)]
pub struct Vector {
    pub cpu: CpuNo,
    pub number: u32,
}

/// A claim, as the matrix's rule sees it.
pub struct View {
    pub holds: LinkedList<Vector>,
    /// The vectors that it found taken.
    pub met: LinkedList<Vector>,
    /// It is the first claim.
    pub first: bool,
    /// Of the first claim: how many of its forks it hasn't met yet.
    pub out: u64,
    /// It was met, and is gone.
    pub spent: bool,
}
