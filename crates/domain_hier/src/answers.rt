//! What an allocation answers.

/// What an allocation answers.
#[derive(Clone, Copy, Debug, PartialEq, Eq)]
pub enum AllocAnswer {
    /// The line has this virq now, from 1.
    Ok(u32),
    /// Another line has its hardware number at its domain.
    Taken,
    /// A level of its path has no number for it.
    OutOfRange,
    /// No level of its path can mask.
    NoMask,
    /// Memory was needed and refused.
    NoMemory,
}
