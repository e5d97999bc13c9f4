//! The rows of a summary: what a line's history comes to, and how the line is left.
//!
//! A history is gone through once, entry by entry. What the row says beside counts, whether a
//! device is linked and whether the line is disabled, is carried along, so nothing is kept of the
//! devices, and no memory is taken. A row is written into a `TextRow` that the caller lends.
#![tactic(auto)]

mod counts;
mod lasts;
mod pieces;
mod standing;
mod summaries;

pub use lasts::lasts_are_told;
pub use summaries::{summary_row, total_row};
