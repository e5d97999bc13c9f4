//! What is looked for.

use crate::left::Left;
use irq_base::Entry;

/// What is looked for among the legal histories of a line.
#[derive(Clone, Copy, PartialEq, Eq)]
pub enum Wanted {
    /// A history that ends with the entry.
    Row(Entry),
    /// A history after which nothing more can happen on the line, and that leaves it so.
    Rest(Left),
}
