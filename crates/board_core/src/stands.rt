//! Where an actor steps.

/// Where an actor steps: the place of its line among the lines that take part and, for a driver,
/// the place of its script.
#[derive(Clone, Copy)]
pub struct Stand {
    /// The place of its line.
    pub line: usize,
    /// The place of its script; none for a thread or a processor.
    pub script: Option<usize>,
}
