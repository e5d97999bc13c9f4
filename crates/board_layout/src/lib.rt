//! Lays the lines of a board: one allocation for each, over a hierarchy of the board's domains.
#![tactic(auto)]

pub mod laying;

pub use laying::lay;
