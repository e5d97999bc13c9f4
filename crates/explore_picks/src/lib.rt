//! Makes a play of a board whose part on one line is a given history, and prints it: the rows of
//! its moves, and then rows of the picks that made them. In place of the board's picks, they make
//! `genirq play` begin with these moves.
//!
//! The picks are sought move by move, by turns of a system, so that each move is one of the board.
//! The line's next entry is due of the actor that makes it, if that actor has nothing else to do.
//! If it is busy on another line it moves there, and if it waits there the others move, but never
//! on this line. Whether a play is found is not promised; that it is one of the board is.
#![tactic(auto)]

pub mod failing;
mod making;
mod others;
mod picks;
mod playing;
mod small;

pub use failing::ExploreFailed;
pub use making::play_to_and_print;
pub use picks::print_picks;
pub use playing::{PICKS, picks_begin_the_play, play_to};
