//! A board is played behind one demultiplexer and printed: its lines are laid over their domains
//! and made by a maker, they are played by the chain's order, the play is printed row by row, and
//! each line's history is handed out in a report.
//!
//! What is promised stands in `specs/Headline.antt`, to be read top down; what is printed in
//! `specs/Rows.antt`; how both come together in `specs/Played.antt`.
#![tactic(auto)]

pub mod ended;
pub mod playing;
pub mod printing;
pub mod rows;

pub use ended::ChainPlay;
pub use playing::{NotForChain, chained_and_print};
