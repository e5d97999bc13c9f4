//! Layouts: where lines lie.
use irq_base::{ItemList, Path};

/// Why a line has no place.
#[derive(Clone, Copy, PartialEq, Eq)]
pub enum Unmapped {
    /// Another line has its hardware number at its domain.
    Taken,
    /// A level of its path has no number for it.
    OutOfRange,
    /// No level of its path can mask.
    NoMask,
}

/// Where a line lies.
#[derive(Clone, Copy)]
pub enum Placement {
    /// The interrupt number by which the machine knows it, from 1, and its way through its domains,
    /// leaf first.
    Mapped { virq: u32, path: Path },
    /// It takes no part.
    Refused(Unmapped),
}

/// One placement for each line, in the order in which they were asked for.
pub type Layout = ItemList<Placement>;
