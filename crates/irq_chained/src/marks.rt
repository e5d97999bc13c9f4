//! Where enters and exits stand in the log, and what is kept of the chain that is open.

/// An enter or an exit.
#[derive(Clone, Copy)]
pub enum Marked {
    /// The chain was entered with this status.
    Enter { status: u32 },
    /// The chain was left.
    Exit,
}

/// An enter or an exit, with the number of the children's moves that stand before it.
#[derive(Clone, Copy)]
pub struct Mark {
    /// How many moves of children stand before it.
    pub before: usize,
    /// What it is.
    pub what: Marked,
}

/// The chain that is open.
#[derive(Clone, Copy)]
pub struct Walk {
    /// The status that was read at its enter.
    pub status: u32,
    /// Bit k is set if the child at place k was taken since.
    pub taken: u64,
}
