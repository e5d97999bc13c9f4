//! What the runs of a line's handlers and threads do by the board: which calls they make, and what
//! those of told devices answer.
//!
//! `RunScripts` takes its memory when it is made. From then on it says which call is due in a run
//! that is there and which answer it has, begins a run's calls anew, and counts one more entry of a
//! call, in constant time and without memory. One handler at a time is at work on a line, so for
//! the handlers' calls it keeps one place, and for the threads' a place each.
#![tactic(auto)]

pub mod groups;
pub mod rows;
pub mod scripts;

pub use rows::{RunPlace, RunRow, Turn};
pub use scripts::RunScripts;
