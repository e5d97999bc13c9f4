//! One signal cell as a chip: a mask, a latch, a sent edge, a level and an in-service bit, with any
//! of the five properties that a line's signal may have.
//!
//! It says what all chips do: each other chip is a `Cell` with fixed properties, or is made of
//! several levels that together behave like one `Cell`. No call takes memory or refuses.
#![tactic(auto)]

pub mod cell;
pub mod marks;

pub use cell::Cell;
pub use marks::CellMarks;
