//! What the program `genirq` does, from its arguments as they come to its status.
//!
//! `irq_main` does what the words ask for: it runs a board by threads, plays one, by the stated
//! order, behind one demultiplexer, with processors that go offline or with a sleep, checks a log,
//! or plays a board that is made from a number. What each command does, ending by ending, is said
//! by `Does` of `specs/Commands.antt`; what is promised of a run is
//! `board_report/specs/Headline.antt`, of a play `irq_play/specs/Headline.antt`, of the other plays
//! `chained_play/specs/Headline.antt`, `hotplug_play/specs/Played.antt` and
//! `sleep_play/specs/Headline.antt`, and of a check `irq_check/specs/Checked.antt`.
//!
//! `run` is the body of `main`, over any reader and writers of std: it puts a buffer before the
//! output and nothing else between std and the top call; `command` is the same over any source and
//! sinks. If an argument isn't UTF-8, the arguments are no command's words. If there is no memory
//! for the arguments, their words or the buffer, the program ends with the status for refused
//! memory.
#![tactic(auto)]

pub mod arguments;
mod commands;
pub mod ending;
pub mod error_rows;
pub mod outcome;
mod plays;
pub mod running;
mod taking;
pub mod top;

pub use arguments::command;
pub use ending::Ending;
pub use outcome::Outcome;
pub use program_io::{Ended, InputRefused};
pub use running::run;
pub use top::{end_early, irq_main};
