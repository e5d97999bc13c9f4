//! Reading a board's text: the board that it states, or the text's first fault.
//!
//! A text is read once, line by line, in time linear in its bytes and its picks, but for counts of
//! the answers and the calls of runs so far; a first look at it only finds whether it has a
//! statement at all. Each statement is judged against the board that the statements before it
//! state, and then added to it.
#![tactic(auto)]

pub mod adding;
mod counting;
pub mod faults;
mod lines;
pub mod masks;
pub mod owners;
pub mod reader;
pub mod reading;
pub mod runs;
pub mod sections;
pub mod stood;
pub mod turns;

pub use board_words::{BoardFault, FaultKind};
pub use reading::{BoardRefused, LONGEST_TEXT, read_board};
