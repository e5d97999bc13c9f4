//! The lines of a board, played: who moves next, and where.
//!
//! A `System` holds the lines of a board that take part, whatever kind of line they are, and plays
//! them by the stated order (`board_play`). Its log is kept as the order of the lines alone, two
//! bytes a step: an entry stands once, in its line's history. Who can move is kept beside the lines
//! (`board_ready`), and asked again of a line after each step on it, so that a turn takes the same
//! time whether one actor waits or three hundred.
#![tactic(auto)]

pub mod ends;
pub mod making;
pub mod moves;
pub mod numbers;
pub mod places;
pub mod placing;
pub mod refreshing;
pub mod scripts;
pub mod stands;
pub mod system;
pub mod turning;
pub mod turns;

pub use ends::PlayEnd;
pub use making::make_lines;
pub use moves::{MovePlace, Moves};
pub use system::System;
pub use turns::{DueCall, Turn};
