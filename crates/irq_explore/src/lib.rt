//! What `genirq-explore` does with a board: it looks for a shortest log of a line that is as
//! wanted, and prints it, or that there is none, or a play of the board that comes to it.
//!
//! Each line is searched by itself, through the states of all its legal histories: its definition
//! with its calls, whatever the drivers do on other lines between. So what is said is said of every
//! lawful log, and so of every play and every run.
//!
//! A survey is what can come on a line at all: a row of totals; a row for each way in which the
//! line can be left where nobody moves, and a row for each entry that can come, each with the
//! length of a shortest log in front.
#![tactic(auto)]

mod answering;
pub mod exploring;
mod playing;
mod present;
pub mod printed_survey;
mod printing;
pub mod rows;
mod small;
mod survey_printing;
pub mod surveying;

pub use explore_picks::ExploreFailed;
pub use exploring::{Explored, explore_row, explore_survey};
pub use playing::explore_play;
pub use printed_survey::print_survey;
pub use rows::{rest_row, totals_row};
