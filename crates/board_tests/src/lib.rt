//! Tests of messages, which no output shows: the messages of chains and of a message controller by
//! itself, and the message of a line over the chain of its path. Besides, plays that were worked out
//! by hand, row by row, of boards behind one demultiplexer and of boards that sleep.
#![tactic(auto)]

#[cfg(test)]
mod chains;
#[cfg(test)]
mod lines;
pub mod worked;

pub use worked::{chains_are_as_worked_out, sleeps_are_as_worked_out};
