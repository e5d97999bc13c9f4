//! A board goes to sleep, wakes, and is printed: its lines are laid over their domains and made by
//! a maker, the board is played by the phases of a sleep, the play is printed row by row, and each
//! line's history is handed out in a report.
//!
//! What is promised stands in `specs/Headline.antt`, to be read top down; what is printed in
//! `specs/Rows.antt`; how both come together in `specs/Played.antt`.
#![tactic(auto)]

pub mod ended;
mod lengthening;
pub mod playing;
pub mod printing;
pub mod rows;

pub use ended::SleepPlay;
pub use playing::{NotForSleep, sleep_and_print};
