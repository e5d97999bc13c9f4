//! What every program over boards needs around its work: its arguments as words, a board read from
//! a source, rows on the error sink, and sinks over std's writers.
//!
//! `genirq` (`irq_top`) and `genirq-explore` (`explore_top`) stand on it, and any further program
//! can. A board's text is read to its end, or one byte past the longest text; the rows of errors
//! are written to a sink whose own faults change nothing. What every call of a program leaves of
//! its source and its sinks is said once, in `specs/Streams.antt`, by what its ending says of them.
#![tactic(auto)]

pub mod arguments;
pub mod buffers;
pub mod error_rows;
pub mod inputs;
pub mod running;

pub use arguments::{ArgumentsRefused, lend, words_of};
pub use buffers::{with_buffer, without_buffer};
pub use error_rows::{push_fault, push_full_log, push_hung, tell_row};
pub use inputs::{InputRefused, read_input};
pub use running::Ended;
