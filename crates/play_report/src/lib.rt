//! A board's play that has ended, by whatever order, is printed row by row after the board's
//! layout, and its lines' histories are handed out; or it is said why the play failed.
//!
//! What is answered and printed, by how the play ended, stands in `specs/Answers.antt`, what is
//! printed of moves in `specs/Report.antt`. What holds of a play by a stated order and of its
//! reports stands in `specs/Ordered.antt`. A scenario brings its order, what its steps keep
//! besides, and the rows of those steps that move no line.
#![tactic(auto)]

pub mod ended;
mod failing;
pub mod printing;

pub use ended::{EndedPlay, PlayedBoard, report, unplayed};
pub use failing::PlayFailed;
pub use printing::{RowRoom, StepRows, print_moves, print_rows};
