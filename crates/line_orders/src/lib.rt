//! Two lines of one definition, side by side in every order in which the actors can move.
//!
//! The orders are gone through depth first: the first actor that can move does, until none can;
//! then the last move is taken back, and the next actor that could have moved in its place does. A
//! line can't take back a step, so the moves before it are made anew on new lines. Whoever compares
//! lines of two kinds hands in a maker for each.
//!
//! What the bound on storms says of any line, of whatever kind, is in `storms.rt`.
#![tactic(auto)]

mod actors;
mod orders;
mod pairs;
pub mod storms;

pub use orders::{Orders, compare};
pub use storms::{next_step_is_not_full, step_within_bound};
