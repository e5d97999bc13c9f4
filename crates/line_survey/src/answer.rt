//! What is answered of something wanted.

use irq_base::Entry;

/// What a search says of something wanted.
#[derive(Drop)]
pub enum Answer {
    /// A shortest legal history as wanted: its entries, the oldest first.
    Found(Vec<Entry>),
    /// No legal history is as wanted.
    Never,
    /// The search was cut, and no legal history of at most this many entries is as wanted.
    NotWithin(u32),
}
