//! The state of a line as numbers, one a field, and back. Two legal histories have the same numbers
//! exactly if the future can't tell them apart, so a search through the states of a line compares
//! numbers.
//!
//! `write` writes the numbers of a state and of the drivers' places, and `read` makes the state of
//! them again and takes the drivers to their places; `read_into` reads into a state that is there.
#![tactic(auto)]

pub mod laws;
mod linking;
mod more;
mod parts;
mod places;
mod reading;
mod rows;
mod telling;
mod words;
mod writing;

pub use more::has_more;
pub use reading::{fresh, read, read_into};
pub use writing::write;
