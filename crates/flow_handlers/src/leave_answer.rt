//! What a flow's end did.

/// What the end of a round did.
#[derive(Clone, Copy, PartialEq, Eq)]
pub struct LeaveAnswer {
    /// What came meanwhile is handled too. On the edge flow the same flow goes on with a new round;
    /// on the fast-EOI flow it is over, and the chip sends the interrupt again.
    pub again: bool,
    /// The chip's mask was opened.
    pub unmask: bool,
}
