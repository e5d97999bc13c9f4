//! What the program `genirq-explore` does, from its arguments as they come to its status.
//!
//! `explore_main` is the top call over words, a source and sinks; `run` puts a buffer before the
//! output and nothing else between std and the top call.
#![tactic(auto)]

pub mod commands;
pub mod ending;
pub mod error_rows;
pub mod running;
pub mod top;

pub use commands::command;
pub use ending::Ending;
pub use error_rows::error_row;
pub use program_io::Ended;
pub use running::run;
pub use top::{end_early, explore_main};
