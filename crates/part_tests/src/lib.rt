//! Tests of what no clause of a part says, and of what only a test calls: streams over a slice and
//! a list, a handler kept in a box, a controller that no board has, messages by their bytes, a line
//! whose log is no longer than its bound, the vectors of each processor as one thread claims them
//! and several do, and searches through small spaces that were worked out by hand.
#![tactic(auto)]

#[cfg(test)]
mod ample_log;
#[cfg(test)]
mod boxes;
#[cfg(test)]
mod claiming_threads;
#[cfg(test)]
mod claims;
#[cfg(test)]
mod controllers;
#[cfg(test)]
mod ends;
#[cfg(test)]
mod number_tests;
pub mod numbers;

pub use numbers::{Numbers, Step};
