//! A board is played by the stated order and printed: its lines are laid over their domains and
//! made by a maker, they are played with the board's picks, the play or a summary of it is printed
//! row by row, and each line's history is handed out in a report.
//!
//! What is promised of a play stands in `specs/Headline.antt`, to be read top down; what is printed
//! of it in `specs/Report.antt`; how both come together in `specs/Played.antt`. The play before it
//! is printed is public, for scenarios that play a board of their own and print rows of their own.
#![tactic(auto)]

mod ended;
mod playing;
mod summary;

pub use ended::StatedPlay;
pub use playing::{play_and_print, play_system};
